//! The files of a run, or of a valid time, as a list: what an operation leaves of it and adds, and what is found in it.
#![tactic(auto)]

mod by;
pub mod change;
mod code;
pub mod finding;
mod offset;
pub mod part;
mod placed;
mod spacing;
mod times;

pub use by::By;
pub use code::code_of;
pub use offset::keeps_least_offset;
pub use placed::Placed;
