//! The devices that a server is asked for, opened.
#![tactic(auto)]

mod opening;

pub use opening::{Asked, open_all};
