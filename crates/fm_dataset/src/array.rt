//! The arrays as which variables are shown.
ghost use Rattle.std.specs.Prelude.{◌≡◌, ◌++◌, IfOk, OnOk, drop, map};
ghost use Rattle.fm_dataset.specs.Declarations as spec;

use dap_model::{Array, DapKind};
use fm_base::{Bytes, List, NoMemory};
use fm_file::is_char;
use fm_model::{Proto, ProtoVar};
use nc_model::{Dim, Kind};
use std::alloc::Global;

// The kind as which values of a kind are sent.
fn dap_kind_of(kind: Kind) -> DapKind
    ensures { result ≡ spec.dap_kind_of kind }
{
    match kind {
        Kind::Byte => DapKind::Byte,
        Kind::Char => DapKind::Text,
        Kind::Short => DapKind::Int16,
        Kind::Int => DapKind::Int32,
        Kind::Float => DapKind::Float32,
        Kind::Double => DapKind::Float64,
    }
}

// The kind as which a variable is sent: the axis is shown in whole seconds from the epoch.
#[tactic(auto, unfolding(crate::specs::Declarations::kind_in))]
pub(crate) fn kind_in(proto: &Proto, var: &ProtoVar) -> DapKind
    ensures { result ≡ spec.kind_in proto.now var.now }
{
    if var.name.as_slice() == proto.axis.as_slice() {
        DapKind::Int32
    } else {
        dap_kind_of(var.kind)
    }
}

// The numbers of the dimensions of a variable's array: the characters along the last dimension are one text.
#[tactic(auto, unfolding(crate::specs::Declarations::array_dims))]
pub(crate) fn array_dims(var: &ProtoVar) -> &[u32]
    ensures { result.now ≡ spec.array_dims var.now }
{
    let ids = var.dims.as_slice();
    if is_char(var.kind) {
        &ids[..ids.len().saturating_sub(1)]
    } else {
        ids
    }
}

// The dimension of a number.
#[tactic(auto, unfolding(crate::specs::Declarations::dim_at))]
fn dim_at(alloc: Global, proto: &Proto, id: u32) -> Result<Dim, NoMemory>
    ensures { IfOk result (λ dim. dim ≡ spec.dim_at proto.now id) }
{
    match proto.dims.as_slice().get(id as usize) {
        None => Ok(Dim {
            name: Bytes::new(alloc),
            size: 0,
        }),
        Some(dim) => Ok(Dim {
            name: Bytes::copy_of(alloc, dim.name.as_slice())?,
            size: dim.size,
        }),
    }
}

// Adds the dimensions of these numbers.
fn put_dims(alloc: Global, proto: &Proto, ids: &[u32], dims: &mut List<Dim>) -> Result<(), NoMemory>
    ensures { OnOk result (dims.new ≡ dims.old ++ map (spec.dim_at proto.now) ids.now) }
{
    for id in ids {
        dims.push(dim_at(alloc, proto, *id)?)?;
    }
    Ok(())
}

// The dimension of the axis, which has the rows of a view along it.
pub(crate) fn rows_dim(alloc: Global, proto: &Proto, count: u64) -> Result<Dim, NoMemory>
    ensures { IfOk result (λ dim. dim ≡ spec.rows_dim proto.now count) }
{
    Ok(Dim {
        name: Bytes::copy_of(alloc, proto.axis.as_slice())?,
        size: count,
    })
}

// The numbers of the dimensions after the first.
pub(crate) fn after_first(ids: &[u32]) -> &[u32]
    ensures { result.now ≡ drop 1 ids.now }
{
    match ids {
        [] => ids,
        [_, others @ ..] => others,
    }
}

// The dimensions of a variable's array, without room for more.
#[tactic(auto, unfolding(crate::specs::Declarations::dims_in))]
fn dims_in(alloc: Global, proto: &Proto, count: u64, var: &ProtoVar) -> Result<List<Dim>, NoMemory>
    ensures { IfOk result (λ dims. dims ≡ spec.dims_in proto.now count var.now) }
{
    let items = Vec::with_capacity(alloc, array_dims(var).len())?;
    let mut dims = List { items };
    if var.timed {
        dims.push(rows_dim(alloc, proto, count)?)?;
        put_dims(alloc, proto, after_first(array_dims(var)), &mut dims)?;
    } else {
        put_dims(alloc, proto, array_dims(var), &mut dims)?;
    }
    Ok(dims)
}

// The array of a variable in a view with this many rows.
#[tactic(auto, unfolding(crate::specs::Declarations::array_of))]
pub(crate) fn array_of(
    alloc: Global,
    proto: &Proto,
    count: u64,
    var: &ProtoVar,
) -> Result<Array, NoMemory>
    ensures { IfOk result (λ array. array ≡ spec.array_of proto.now count var.now) }
{
    Ok(Array {
        name: Bytes::copy_of(alloc, var.name.as_slice())?,
        kind: kind_in(proto, var),
        dims: dims_in(alloc, proto, count, var)?,
    })
}
