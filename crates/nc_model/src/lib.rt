//! The parts of a netCDF classic header, the numbers and units of time in it, and what can be wrong with each.
#![tactic(auto)]

mod fault;
mod header;
mod kind;
mod pattern;
mod units;

pub use fault::{FormatFault, HeaderFault, LayoutFault};
pub use header::{Attr, Dim, Header, NcVar};
pub use kind::Kind;
pub use pattern::{Pattern, Value};
pub use units::{Units, UnitsFault};
