//! The reasons why files are refused, in words for a person.
#![tactic(auto)]

mod load;
mod model;
mod reason;

pub use load::reason_of;
pub use reason::{Part, Reason, plain};
