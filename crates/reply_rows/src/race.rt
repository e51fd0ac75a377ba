//! The publisher over threads.

mod publisher;
mod readers;
mod runs;
mod sketch;
mod steps;

pub use publisher::{Raced, run_race};
