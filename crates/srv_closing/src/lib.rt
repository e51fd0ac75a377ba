//! The end of a run, by what its workers tell: its status, and its lines.
#![tactic(auto)]

mod closing;
mod lines;
mod saying;

pub use closing::close;
pub use lines::close_many;
pub use saying::say;
