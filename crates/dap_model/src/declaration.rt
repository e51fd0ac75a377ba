//! Declarations of a dataset (ESE-RFC-004, data model).

use fm_base::{Bytes, List};
use nc_model::Dim;

/// What a value of a DAP array is. `Text` is DAP's `String`.
#[derive(Clone, Copy)]
pub enum DapKind {
    Byte,
    Int16,
    Int32,
    Float32,
    Float64,
    Text,
}

/// An array, or a single value where it has no dimension.
#[derive(Drop)]
pub struct Array {
    pub name: Bytes,
    pub kind: DapKind,
    pub dims: List<Dim>,
}

/// A declaration: an array, a Grid of an array and one map for each of its dimensions, or a Structure of arrays.
#[derive(Drop)]
pub enum Decl {
    Plain(Array),
    Grid {
        name: Bytes,
        array: Array,
        maps: List<Array>,
    },
    Structure {
        name: Bytes,
        members: List<Array>,
    },
}
