//! What DAP 2.0 sends, as plain data: declarations of a dataset, slabs of arrays, and what a constraint asks for. The
//! definitions in `specs/` say what a structure text is, what a constraint means, and how values are laid out.
#![tactic(auto)]

mod declaration;
pub mod examples;
mod fault;
pub mod laws;
mod projection;

pub use declaration::{Array, DapKind, Decl};
pub use fault::{CeFault, ProjectFault};
pub use projection::{Clause, Projected, Projection, Sent, Slab};
