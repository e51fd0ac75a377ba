//! Rows of commands: the world in memory that a row describes, whose devices may wait for each other, and what a run
//! left of it as text.
#![tactic(auto)]

mod arriving;
mod course;
mod doored;
mod given;
mod linked;
mod output;
mod paced;
mod runs;
mod shown;
mod values;
mod world;

pub use course::Course;
pub use given::Given;
pub use runs::Runs;
pub use shown::left;
pub use world::{MemWorld, world_of};
