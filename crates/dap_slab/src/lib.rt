//! Slabs of arrays: how many indices they pick, the index lists that they pick, in row-major order, and the parts of a
//! declaration to which slabs are given.
#![tactic(auto)]

mod count;
mod index;
mod part;
mod walk;

pub use count::{slab_count, slab_len};
pub use index::put_index;
pub use part::part_of;
pub use walk::{Walk, advance};
