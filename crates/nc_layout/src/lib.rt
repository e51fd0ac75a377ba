//! Where the elements of a netCDF classic file lie.
#![tactic(auto)]

mod dims;
mod elements;
mod ends;
pub mod examples;
pub mod laws;
mod laying;
mod layout;
mod records;
mod vsizes;

pub use dims::{names_record_dim, size_at};
pub use fm_base::Fail;
pub use laying::lay_out;
pub use layout::Layout;
pub use nc_model::LayoutFault;
