//! A reader over the bytes of a netCDF classic file that knows its offset, and takes one field after the other.
#![tactic(auto)]

mod reader;

pub use reader::Reader;
