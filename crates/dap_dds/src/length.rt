//! The length of the structure text, without the text.
ghost use Rattle.std.specs.Prelude.{◌≡◌, ◌<◌, ◌^◌, length};
ghost use Rattle.std.specs.Fmt.{decimal};
ghost use Rattle.dap_model.specs.StructureText as text;

use dap_model::{Array, DapKind, Decl};
use fm_base::List;
use nc_model::Dim;

// How many digits a number has.
#[tactic(auto, using(crate::proofs::Lengths::one_digit, crate::proofs::Lengths::one_digit_more, crate::proofs::Lengths::few_digits))]
fn decimal_len(n: u64) -> u64
    ensures { result ≡ length (decimal n) }
{
    if n < 10 { 1 } else { decimal_len(n / 10) + 1 }
}

// The length of the word of a kind.
#[tactic(auto, unfolding(dap_model::specs::StructureText::kind_text))]
fn kind_len(kind: DapKind) -> u64
    ensures { result ≡ length (text.kind_text kind) }
{
    match kind {
        DapKind::Byte => 4,
        DapKind::Int16 | DapKind::Int32 => 5,
        DapKind::Float32 | DapKind::Float64 => 7,
        DapKind::Text => 6,
    }
}

// The length of the spaces before a line.
#[tactic(auto, unfolding(dap_model::specs::StructureText::indent))]
fn indent_len(depth: u64) -> u64
    requires { depth < 8 }
    ensures { result ≡ length (text.indent depth) }
{
    4 * depth
}

// The length of a dimension.
#[tactic(auto, unfolding(dap_model::specs::StructureText::dim_text))]
fn dim_len(dim: &Dim) -> u64
    requires { length (text.dim_text dim.now) < 2 ^ 64 }
    ensures { result ≡ length (text.dim_text dim.now) }
{
    dim.name.len() as u64 + decimal_len(dim.size) + 5
}

// The length of dimensions one after the other.
#[tactic(auto, using(crate::proofs::Lengths::taken_len), unfolding(dap_model::specs::StructureText::dims_text))]
fn dims_len(dims: &[Dim]) -> u64
    requires { length (text.dims_text dims.now) < 2 ^ 64 }
    ensures { result ≡ length (text.dims_text dims.now) }
{
    let mut len = 0;
    for dim in dims {
        len += dim_len(dim);
    }
    len
}

// The length of the line of an array.
#[tactic(auto, unfolding(dap_model::specs::StructureText::array_text))]
fn array_len(array: &Array, depth: u64) -> u64
    requires few { depth < 8 }
    requires fits { length (text.array_text depth array.now) < 2 ^ 64 }
    ensures { result ≡ length (text.array_text depth array.now) }
{
    let words = indent_len(depth) + kind_len(array.kind) + array.name.len() as u64;
    words + dims_len(array.dims.as_slice()) + 3
}

// The length of arrays, each on its line.
#[tactic(auto, using(crate::proofs::Lengths::taken_len), unfolding(dap_model::specs::StructureText::arrays_text))]
fn arrays_len(arrays: &[Array], depth: u64) -> u64
    requires few { depth < 8 }
    requires fits { length (text.arrays_text depth arrays.now) < 2 ^ 64 }
    ensures { result ≡ length (text.arrays_text depth arrays.now) }
{
    let mut len = 0;
    for array in arrays {
        len += array_len(array, depth);
    }
    len
}

// The length of a line of these words.
#[tactic(auto, unfolding(dap_model::specs::StructureText::line_text))]
fn line_len(depth: u64, words: &[u8]) -> u64
    requires few { depth < 8 }
    requires fits { length (text.line_text depth words.now) < 2 ^ 64 }
    ensures { result ≡ length (text.line_text depth words.now) }
{
    indent_len(depth) + words.len() as u64 + 1
}

// The length of the line that ends a declaration of several lines.
#[tactic(auto, unfolding(dap_model::specs::StructureText::close_text))]
fn close_len(depth: u64, name: &[u8]) -> u64
    requires few { depth < 8 }
    requires fits { length (text.close_text depth name.now) < 2 ^ 64 }
    ensures { result ≡ length (text.close_text depth name.now) }
{
    indent_len(depth) + name.len() as u64 + 4
}

// The length of a Grid.
#[tactic(auto, unfolding(dap_model::specs::StructureText::grid_text))]
fn grid_len(name: &[u8], array: &Array, maps: &[Array], depth: u64) -> u64
    requires few { depth < 4 }
    requires fits { length (text.grid_text depth name.now array.now maps.now) < 2 ^ 64 }
    ensures { result ≡ length (text.grid_text depth name.now array.now maps.now) }
{
    let lines = line_len(depth, b"Grid {")
        + line_len(depth + 1, b"ARRAY:")
        + line_len(depth + 1, b"MAPS:");
    let arrays = array_len(array, depth + 2) + arrays_len(maps, depth + 2);
    lines + arrays + close_len(depth, name)
}

// The length of a Structure.
#[tactic(auto, unfolding(dap_model::specs::StructureText::structure_text))]
fn structure_len(name: &[u8], members: &[Array], depth: u64) -> u64
    requires few { depth < 4 }
    requires fits { length (text.structure_text depth name.now members.now) < 2 ^ 64 }
    ensures { result ≡ length (text.structure_text depth name.now members.now) }
{
    line_len(depth, b"Structure {") + arrays_len(members, depth + 1) + close_len(depth, name)
}

// The length of a declaration.
#[tactic(auto, unfolding(dap_model::specs::StructureText::decl_text))]
fn decl_len(decl: &Decl, depth: u64) -> u64
    requires few { depth < 4 }
    requires fits { length (text.decl_text depth decl.now) < 2 ^ 64 }
    ensures { result ≡ length (text.decl_text depth decl.now) }
{
    match decl {
        Decl::Plain(array) => array_len(array, depth),
        Decl::Grid { name, array, maps } => {
            grid_len(name.as_slice(), array, maps.as_slice(), depth)
        }
        Decl::Structure { name, members } => {
            structure_len(name.as_slice(), members.as_slice(), depth)
        }
    }
}

// The length of declarations one after the other.
#[tactic(auto, using(crate::proofs::Lengths::taken_len), unfolding(dap_model::specs::StructureText::decls_text))]
fn decls_len(decls: &[Decl], depth: u64) -> u64
    requires few { depth < 4 }
    requires fits { length (text.decls_text depth decls.now) < 2 ^ 64 }
    ensures { result ≡ length (text.decls_text depth decls.now) }
{
    let mut len = 0;
    for decl in decls {
        len += decl_len(decl, depth);
    }
    len
}

/// How many bytes `dds_text` writes for a dataset with this label. The caller has a text shorter than 2^64 bytes. It
/// takes no memory.
#[tactic(auto, unfolding(dap_model::specs::StructureText::dds_of))]
pub fn dds_len(label: &[u8], decls: &List<Decl>) -> u64
    requires { length (text.dds_of label.now decls.now) < 2 ^ 64 }
    ensures { result ≡ length (text.dds_of label.now decls.now) }
{
    line_len(0, b"Dataset {") + decls_len(decls.as_slice(), 1) + close_len(0, label)
}
