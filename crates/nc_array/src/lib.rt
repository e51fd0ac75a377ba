//! A netCDF classic file as its bytes and their layout: the bytes of one element in place, and of all of a variable.
#![tactic(auto)]

mod file;

pub use file::FileView;
pub use nc_layout::Layout;
