//! The header of a netCDF classic file, read from bytes of any kind: a header, or the first fault with its offset.
#![tactic(auto)]

mod attrs;
mod dims;
mod found;
mod header;
mod laws;
mod names;
mod vars;

pub use fm_base::Fail;
pub use header::read_header;
pub use laws::a_fault_is_settled_by_its_field;
pub use nc_model::{Header, HeaderFault};
