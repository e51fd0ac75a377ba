//! A large collection that is made from two numbers, put file by file and read by four of its views.
#![tactic(auto)]

mod asking;
pub mod laws;
mod making;
mod name;
mod summary;
mod summing;
mod taking;

pub use summary::{Summary, summarize};
