//! The words of the command, read with `clap`: the job that they are, or that they are none.
#![tactic(auto)]

mod args;
mod arguments;
mod asked;
mod check;
mod collections;
mod command;
mod faulty;
mod faulty_words;
mod help;
mod job;
pub mod laws;
mod line;
mod load;
mod made;
mod many;
mod matches;
mod number;
mod once;
mod pull;
mod read;
mod reason;
mod serve;
mod shown;
mod site;
mod stepped;
mod steps;
mod values;
mod views;

pub use asked::text_asked;
pub use job::{BadWords, Command, Job, Serving, ServingMany, Spec, Step, Stepping};
pub use read::read_job;
pub use reason::reason_of;
