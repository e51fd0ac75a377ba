//! The elements of a coordinate variable of a file beside those that the prototype holds.
#![tactic(auto)]

mod grid;

pub use grid::same_bytes;
