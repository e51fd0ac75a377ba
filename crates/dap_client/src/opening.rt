//! What the first bytes of a declaration stand for.

use dap_model::DapKind;

// What the first letter of a kind stands for: `Byte`, `Int16` or `Int32`, `Float32` or `Float64`, `String`.
#[derive(Clone, Copy)]
pub(crate) enum Stem {
    Byte,
    Int,
    Float,
    Str,
}

// What opens a declaration: the kind of an array, or the line of a Grid or a Structure.
#[derive(Clone, Copy)]
pub(crate) enum Opening {
    Plain(DapKind),
    Grid,
    Structure,
}
