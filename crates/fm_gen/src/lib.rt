//! Large netCDF files that are made of two numbers.
#![tactic(auto)]

mod fields;
mod file;
mod values;

pub use file::make_file;
