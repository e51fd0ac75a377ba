//! What is sent of a dataset for a constraint: its projection, or the first fault of the first clause at fault.
#![tactic(auto)]

mod all;
mod check;
mod cut;
mod index;
mod note;
mod part;
mod picked;
mod projection;
mod sent;
mod shared;
mod slabs;
mod slot;
mod text;
mod whole;

pub use all::whole_parts;
pub use cut::cut_dims;
pub use projection::{project, project_text};
