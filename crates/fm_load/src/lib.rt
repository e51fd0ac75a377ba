//! Takes a netCDF classic file into a collection over its prototype, or says the first fault that it has.
#![tactic(auto)]

mod axis;
mod grid;
pub mod laws;
mod lengths;
mod loading;
mod packing;
mod run;
mod slots;
mod times;
mod units;

pub use loading::load;
