//! The definition of a collection of forecast runs: loading a file, the operations on files, and the rows that the
//! views of them have (THREDDS Data Server, Forecast Model Run Collections). The definitions stand in `specs/`, on
//! plain lists.
#![tactic(auto)]

pub mod examples;
mod full;
pub mod laws;
mod limit;
mod loaded;
mod op;
mod proto;
mod row;
mod site;

pub use full::{Full, Tally, Which};
pub use limit::{MAX_BYTES, MAX_FILE_BYTES, MAX_FILES, MAX_INSTANT, MAX_NAME, MAX_ROWS, MAX_TIMES};
pub use loaded::{LoadFault, Loaded, Slot};
pub use op::Op;
pub use proto::{Proto, ProtoFault, ProtoVar};
pub use row::{Row, ViewName};
pub use site::Site;
