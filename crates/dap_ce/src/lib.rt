//! Constraints of DAP 2.0 as values: what a text asks for, or where it is wrong.
#![tactic(auto)]

mod phase;
mod read;
mod reader;

pub use read::read_constraint;
