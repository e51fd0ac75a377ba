//! Moments and units of time, as names, texts and the `units` attribute of a file spell them.
#![tactic(auto)]

mod calendar;
mod date;
pub mod examples;
mod form;
mod instant;
pub mod laws;
mod mark;
mod number;
mod scanner;
mod time;
mod unit;
mod units;

pub use instant::{instant_text, read_instant};
pub use mark::read_mark;
pub use nc_model::{Units, UnitsFault};
pub use units::read_units;
