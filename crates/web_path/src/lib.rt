//! The targets of requests: which view of a collection is asked for, how, and with what constraint.
#![tactic(auto)]

mod below;
mod escape;
mod fault;
pub mod laws;
mod read;
mod scan;
mod target;
mod view;

pub use below::is_below;
pub use fault::PathFault;
pub use read::read_target;
pub use target::{Service, Target};
