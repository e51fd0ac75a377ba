//! The commands of the program over any world.
#![tactic(auto)]

mod alone;
mod job;
mod program;
mod servers;

pub use program::{
    run, run_check, run_extract, run_load, run_once, run_process, run_pull, run_twod,
};
pub use servers::{run_many, run_serve};
