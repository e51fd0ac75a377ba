//! Takes a netCDF classic file as the prototype of a collection, or says the first fault that it has.
#![tactic(auto)]

mod copies;
mod faults;
mod kept;
mod prototype;
mod read;
mod steps;

pub use read::read_proto;
