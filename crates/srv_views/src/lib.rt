//! The commands that do steps on a collection and send a view of it over the link: `twod` and `extract`.
#![tactic(auto)]

mod extracting;
mod picked;
mod running;
mod sending;
mod two_dimensional;

pub use extracting::extract;
pub use picked::ExtractAsk;
pub use two_dimensional::twod;
