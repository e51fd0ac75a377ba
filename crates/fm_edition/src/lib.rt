//! What a collection holds at one moment. An operation makes a new edition from an old one, and both share the files.
#![tactic(auto)]

mod counting;
mod instants;
pub mod laws;
mod maps;
mod row;

pub use fm_list::keeps_least_offset;
pub use fm_model::{Full, Tally, Which};
pub use instants::{append, in_order};
pub use maps::Edition;
