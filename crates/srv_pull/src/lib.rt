//! The command that reads a reply of another server, and says what its values come to: `pull`.
#![tactic(auto)]

mod pulling;
mod sums;

pub use pulling::pull;
