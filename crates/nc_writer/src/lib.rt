//! A view of a collection as a netCDF file: what is sent of a dataset, as variables whose data follows one header.
#![tactic(auto)]

mod attributes;
mod data;
mod dims;
mod fault;
mod fields;
mod file;
mod header;
pub mod laws;
mod lending;
mod text;
mod values;
mod variable;
mod variables;
mod zeros;

pub use fault::WriteFault;
pub use file::NcFile;
pub use variable::Variable;
