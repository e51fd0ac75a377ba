//! The rows of a view, in pages that several views may share.
#![tactic(auto)]

mod rows;
mod stretch;

pub use rows::Rows;
