//! A door that is served: its links are served all at once, each from a fresh session, and given back.
#![tactic(auto)]

mod coming;
mod door;
mod door_next;
mod door_report;
mod going;
mod hall;
mod kept;
pub mod laws;

pub use door::{serve_door, serve_door_looks};
pub use door_report::{DoorEnd, DoorReport};
