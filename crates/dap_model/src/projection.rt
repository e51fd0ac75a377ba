//! What a constraint asks for, and what is sent for it (ESE-RFC-004, constraint expressions).
ghost use Rattle.std.specs.Prelude.{◌≡◌};

use crate::declaration::Decl;
use fm_base::{Arc, Bytes, List};

/// Some of the indices along one dimension: `start`, `start + stride` and so on, up to `stop`.
#[derive(Clone, Copy, PartialEq, Eq)]
pub struct Slab {
    pub start: u64,
    pub stride: u64,
    pub stop: u64,
}

/// One item of a projection: the names of a path, and a slab for each dimension, or none for the whole.
#[derive(Drop)]
pub struct Clause {
    pub path: List<Bytes>,
    pub slabs: List<Slab>,
}

/// What a constraint asks for, in the order in which it is written. No clause asks for everything.
#[derive(Drop)]
pub struct Projection {
    pub clauses: List<Clause>,
}

/// A part of a declaration that is sent, with a slab for each of its dimensions. The declaration is named by its index
/// in the dataset; part 0 is its array, and part `i` the `i`-th map from 1. Parts with the same slabs may share them.
#[derive(Drop)]
pub struct Sent {
    pub decl: u32,
    pub part: u32,
    pub slabs: Arc<List<Slab>>,
}

impl Sent {
    /// The slabs.
    pub fn slabs(&self) -> &[Slab]
        ensures { result.now ≡ self.now.slabs }
    {
        self.slabs.get().as_slice()
    }
}

/// What is sent for a projection: the declarations with the lengths that their slabs leave, and the parts whose values
/// follow, in the dataset's order.
#[derive(Drop)]
pub struct Projected {
    pub decls: List<Decl>,
    pub sent: List<Sent>,
}
