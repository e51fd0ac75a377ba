//! The structure text.
ghost use Rattle.std.specs.Prelude.{◌≡◌, ◌<◌, ◌++◌, IfOk, OnOk, OnErr, codes, length, take};
ghost use Rattle.std.specs.Fmt.{decimal};
ghost use Rattle.dap_model.specs.StructureText as text;
ghost use Rattle.dap_dds.specs.Lines as lines;

use crate::line::{put_indent, put_line};
use dap_model::{Array, DapKind, Decl};
use fm_base::{Bytes, List, NoMemory};
use itoa::Buffer;
use nc_model::Dim;
use std::alloc::Global;

// The word of a kind.
#[tactic(auto, unfolding(dap_model::specs::StructureText::kind_text))]
fn put_kind(kind: DapKind, out: &mut Bytes) -> Result<(), NoMemory>
    ensures ok { OnOk result (out.new ≡ out.old ++ text.kind_text kind) }
    ensures err { OnErr result (take (length out.old) out.new ≡ out.old) }
{
    match kind {
        DapKind::Byte => out.append(b"Byte"),
        DapKind::Int16 => out.append(b"Int16"),
        DapKind::Int32 => out.append(b"Int32"),
        DapKind::Float32 => out.append(b"Float32"),
        DapKind::Float64 => out.append(b"Float64"),
        DapKind::Text => out.append(b"String"),
    }
}

// A number in decimal. It takes no memory but in the text.
fn put_number(n: u64, out: &mut Bytes) -> Result<(), NoMemory>
    ensures ok { OnOk result (out.new ≡ out.old ++ decimal n) }
    ensures err { OnErr result (take (length out.old) out.new ≡ out.old) }
{
    let mut buffer = Buffer::new();
    out.append(buffer.format(n).as_bytes())
}

/// Writes a dimension of this name and length. After an `Err` a front of it may stand at the end.
#[tactic(auto, unfolding(dap_model::specs::StructureText::dim_text))]
pub fn put_dim(name: &[u8], size: u64, out: &mut Bytes) -> Result<(), NoMemory>
    ensures ok { OnOk result (out.new ≡ out.old ++ text.dim_text (record { name = name.now; size = size })) }
    ensures err { OnErr result (take (length out.old) out.new ≡ out.old) }
{
    out.append(b"[")?;
    out.append(name)?;
    out.append(b" = ")?;
    put_number(size, out)?;
    out.append(b"]")
}

/// Writes dimensions one after the other. After an `Err` a front of them may stand at the end.
#[tactic(auto, unfolding(dap_model::specs::StructureText::dims_text))]
pub fn put_dims(dims: &[Dim], out: &mut Bytes) -> Result<(), NoMemory>
    ensures ok { OnOk result (out.new ≡ out.old ++ text.dims_text dims.now) }
    ensures err { OnErr result (take (length out.old) out.new ≡ out.old) }
{
    for dim in dims {
        put_dim(dim.name.as_slice(), dim.size, out)?;
    }
    Ok(())
}

/// Writes the line of an array up to its dimensions. After an `Err` a front of it may stand at the end.
#[tactic(auto, unfolding(crate::specs::Lines::array_front))]
pub fn put_array_front(array: &Array, depth: u32, out: &mut Bytes) -> Result<(), NoMemory>
    requires { depth < 8 }
    ensures ok { OnOk result (out.new ≡ out.old ++ lines.array_front depth array.now) }
    ensures err { OnErr result (take (length out.old) out.new ≡ out.old) }
{
    put_indent(depth, out)?;
    put_kind(array.kind, out)?;
    out.append(b" ")?;
    out.append(array.name.as_slice())
}

// The line of an array.
#[tactic(auto, unfolding(crate::specs::Lines::array_front, dap_model::specs::StructureText::array_text))]
fn put_array(array: &Array, depth: u32, out: &mut Bytes) -> Result<(), NoMemory>
    requires { depth < 8 }
    ensures { OnOk result (out.new ≡ out.old ++ text.array_text depth array.now) }
{
    put_array_front(array, depth, out)?;
    put_dims(array.dims.as_slice(), out)?;
    out.append(b";\n")
}

// Arrays, each on its line.
#[tactic(auto, unfolding(dap_model::specs::StructureText::arrays_text))]
fn put_arrays(arrays: &[Array], depth: u32, out: &mut Bytes) -> Result<(), NoMemory>
    requires { depth < 8 }
    ensures { OnOk result (out.new ≡ out.old ++ text.arrays_text depth arrays.now) }
{
    for array in arrays {
        put_array(array, depth, out)?;
    }
    Ok(())
}

/// Writes the line that ends a declaration of several lines. After an `Err` a front of it may stand at the end.
#[tactic(auto, unfolding(dap_model::specs::StructureText::close_text))]
pub fn put_close(depth: u32, name: &[u8], out: &mut Bytes) -> Result<(), NoMemory>
    requires { depth < 8 }
    ensures ok { OnOk result (out.new ≡ out.old ++ text.close_text depth name.now) }
    ensures err { OnErr result (take (length out.old) out.new ≡ out.old) }
{
    put_indent(depth, out)?;
    out.append(b"} ")?;
    out.append(name)?;
    out.append(b";\n")
}

// A Grid: its array and its maps, each under a line of its own.
#[tactic(auto, unfolding(dap_model::specs::StructureText::grid_text))]
fn put_grid(
    name: &[u8],
    array: &Array,
    maps: &[Array],
    depth: u32,
    out: &mut Bytes,
) -> Result<(), NoMemory>
    requires { depth < 4 }
    ensures { OnOk result (out.new ≡ out.old ++ text.grid_text depth name.now array.now maps.now) }
{
    put_line(depth, b"Grid {", out)?;
    put_line(depth + 1, b"ARRAY:", out)?;
    put_array(array, depth + 2, out)?;
    put_line(depth + 1, b"MAPS:", out)?;
    put_arrays(maps, depth + 2, out)?;
    put_close(depth, name, out)
}

// A Structure and its members.
#[tactic(auto, unfolding(dap_model::specs::StructureText::structure_text))]
fn put_structure(
    name: &[u8],
    members: &[Array],
    depth: u32,
    out: &mut Bytes,
) -> Result<(), NoMemory>
    requires { depth < 4 }
    ensures { OnOk result (out.new ≡ out.old ++ text.structure_text depth name.now members.now) }
{
    put_line(depth, b"Structure {", out)?;
    put_arrays(members, depth + 1, out)?;
    put_close(depth, name, out)
}

// A declaration.
#[tactic(auto, unfolding(dap_model::specs::StructureText::decl_text))]
fn put_decl(decl: &Decl, depth: u32, out: &mut Bytes) -> Result<(), NoMemory>
    requires { depth < 4 }
    ensures { OnOk result (out.new ≡ out.old ++ text.decl_text depth decl.now) }
{
    match decl {
        Decl::Plain(array) => put_array(array, depth, out),
        Decl::Grid { name, array, maps } => {
            put_grid(name.as_slice(), array, maps.as_slice(), depth, out)
        }
        Decl::Structure { name, members } => {
            put_structure(name.as_slice(), members.as_slice(), depth, out)
        }
    }
}

// Declarations one after the other.
#[tactic(auto, unfolding(dap_model::specs::StructureText::decls_text))]
fn put_decls(decls: &[Decl], depth: u32, out: &mut Bytes) -> Result<(), NoMemory>
    requires { depth < 4 }
    ensures { OnOk result (out.new ≡ out.old ++ text.decls_text depth decls.now) }
{
    for decl in decls {
        put_decl(decl, depth, out)?;
    }
    Ok(())
}

// With how many bytes a text begins, so that a common one doesn't grow.
const ROOM: usize = 1_024;

/// A structure text that has its first line, with room for a common one.
pub fn dds_begun(alloc: Global) -> Result<Bytes, NoMemory>
    ensures { IfOk result (λ first. first ≡ text.line_text 0 (codes "Dataset {")) }
{
    let items = Vec::with_capacity(alloc, ROOM)?;
    let mut text = Bytes { items };
    put_line(0, b"Dataset {", &mut text)?;
    Ok(text)
}

/// The structure text (ESE-RFC-004, DDS) of a dataset with this label: `Dataset {`, each declaration indented by four
/// spaces, and `} LABEL;`, with LF after each line.
#[tactic(auto, unfolding(dap_model::specs::StructureText::dds_of))]
pub fn dds_of(alloc: Global, label: &[u8], decls: &List<Decl>) -> Result<Bytes, NoMemory>
    ensures { IfOk result (λ made. made ≡ text.dds_of label.now decls.now) }
{
    let mut whole = dds_begun(alloc)?;
    put_decls(decls.as_slice(), 1, &mut whole)?;
    put_close(0, label, &mut whole)?;
    Ok(whole)
}

/// Writes the structure text of a dataset with this label at the end of `out`. An `Err` changes nothing.
pub fn dds_text(
    alloc: Global,
    label: &[u8],
    decls: &List<Decl>,
    out: &mut Bytes,
) -> Result<(), NoMemory>
    ensures ok { OnOk result (out.new ≡ out.old ++ text.dds_of label.now decls.now) }
    ensures err { OnErr result (out.new ≡ out.old) }
{
    let whole = dds_of(alloc, label, decls)?;
    out.append(whole.as_slice())
}
