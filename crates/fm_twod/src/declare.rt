//! The declarations of the two-dimensional view of a collection.
ghost use Rattle.std.specs.Prelude.{◌≡◌, ◌++◌, ◌∷◌, [], IfOk, IsSome, OnOk, Some, drop, length, map, slice_get};
ghost use Rattle.dap_model.specs.Picking.{parts_of};
ghost use Rattle.fm_twod.specs.Declarations as spec;

use dap_model::{Array, DapKind, Decl};
use dap_slab::part_of;
use fm_base::{Bytes, List, NoMemory};
use fm_dataset::Dataset;
use fm_model::Proto;
use nc_model::Dim;
use std::alloc::Global;

/// The dimensions of the runs and of the offsets.
#[derive(Drop)]
pub struct Sides {
    pub run: Dim,
    pub offset: Dim,
}

// The dimension of the axis's name with some bytes after it.
fn side(alloc: Global, axis: &[u8], after: &[u8], size: u64) -> Result<Dim, NoMemory>
    ensures { IfOk result (λ dim. dim ≡ record { name = axis.now ++ after.now; size = size }) }
{
    let mut name = Bytes::copy_of(alloc, axis)?;
    name.append(after)?;
    Ok(Dim { name, size })
}

// The dimensions of these numbers of runs and offsets.
#[tactic(auto, unfolding(crate::specs::Declarations::sides_of, fm_model::specs::Prototype::run_name, fm_model::specs::Prototype::offset_name))]
pub(crate) fn sides_of(
    alloc: Global,
    proto: &Proto,
    runs: u64,
    offsets: u64,
) -> Result<Sides, NoMemory>
    ensures { IfOk result (λ sides. sides ≡ spec.sides_of proto.now runs offsets) }
{
    let run = side(alloc, proto.axis.as_slice(), b"_run", runs)?;
    let offset = side(alloc, proto.axis.as_slice(), b"_offset", offsets)?;
    Ok(Sides { run, offset })
}

// An equal dimension.
fn copy_dim(alloc: Global, dim: &Dim) -> Result<Dim, NoMemory>
    ensures { IfOk result (λ copy. copy ≡ dim.now) }
{
    Ok(Dim {
        name: Bytes::copy_of(alloc, dim.name.as_slice())?,
        size: dim.size,
    })
}

// Adds dimensions at the end.
fn put_dims(alloc: Global, dims: &[Dim], list: &mut List<Dim>) -> Result<(), NoMemory>
    ensures { OnOk result (list.new ≡ list.old ++ dims.now) }
{
    for dim in dims {
        list.push(copy_dim(alloc, dim)?)?;
    }
    Ok(())
}

// The dimensions after the first.
fn after_first(dims: &[Dim]) -> &[Dim]
    ensures { result.now ≡ drop 1 dims.now }
{
    match dims {
        [] => dims,
        [_, others @ ..] => others,
    }
}

// Adds the dimensions of the runs and of the offsets, and others behind them.
fn put_timed_dims(
    alloc: Global,
    sides: &Sides,
    others: &[Dim],
    list: &mut List<Dim>,
) -> Result<(), NoMemory>
    ensures { OnOk result (list.new ≡ list.old ++ sides.now.run ∷ sides.now.offset ∷ others.now) }
{
    list.push(copy_dim(alloc, &sides.run)?)?;
    list.push(copy_dim(alloc, &sides.offset)?)?;
    put_dims(alloc, others, list)
}

// The dimensions of an array.
#[tactic(auto, unfolding(crate::specs::Declarations::grid_dims))]
fn grid_dims(alloc: Global, sides: &Sides, timed: bool, dims: &[Dim]) -> Result<List<Dim>, NoMemory>
    ensures { IfOk result (λ list. list ≡ spec.grid_dims sides.now timed dims.now) }
{
    let mut list = List::new(alloc);
    let put = if timed {
        put_timed_dims(alloc, sides, after_first(dims), &mut list)
    } else {
        put_dims(alloc, dims, &mut list)
    };
    match put {
        Ok(()) => Ok(list),
        Err(NoMemory) => {
            drop(list);
            Err(NoMemory)
        }
    }
}

// An array of a view, by run and offset.
#[tactic(auto, unfolding(crate::specs::Declarations::by_sides))]
fn by_sides(alloc: Global, sides: &Sides, timed: bool, array: &Array) -> Result<Array, NoMemory>
    ensures { IfOk result (λ found. found ≡ spec.by_sides sides.now timed array.now) }
{
    Ok(Array {
        name: Bytes::copy_of(alloc, array.name.as_slice())?,
        kind: array.kind,
        dims: grid_dims(alloc, sides, timed, array.dims.as_slice())?,
    })
}

// The first part of a declaration.
fn first_part(decl: &Decl) -> &Array
    requires { IsSome (slice_get (parts_of decl.now) 0) }
    ensures { slice_get (parts_of decl.now) 0 ≡ Some result.now }
{
    let Some(array) = part_of(decl, 0) else {
        unreachable!()
    };
    array
}

// Puts the declarations of the variables, by those of the dataset of all cells, in an empty list.
fn put_decls_of_vars(
    alloc: Global,
    sides: &Sides,
    cells: &Dataset,
    decls: &mut List<Decl>,
) -> Result<(), NoMemory>
    requires { decls.old ≡ [] }
    ensures { OnOk result (decls.new
        ≡ map (spec.grid_decl sides.now cells.now.proto (length cells.now.rows)) cells.now.proto.vars) }
{
    let vars = cells.proto().get().vars.as_slice();
    let shown = cells.decls().as_slice();
    for index in 0..vars.len() {
        let var = &vars[index];
        let decl = &shown[index];
        let array = by_sides(alloc, sides, var.timed, first_part(decl))?;
        decls.push(Decl::Plain(array))?;
    }
    Ok(())
}

// Whole seconds along a dimension of their name.
#[tactic(auto, unfolding(crate::specs::Declarations::seconds_along))]
fn seconds_along(alloc: Global, dim: &Dim) -> Result<Decl, NoMemory>
    ensures { IfOk result (λ decl. decl ≡ spec.seconds_along dim.now) }
{
    let mut dims = List::new(alloc);
    dims.push(copy_dim(alloc, dim)?)?;
    Ok(Decl::Plain(Array {
        name: Bytes::copy_of(alloc, dim.name.as_slice())?,
        kind: DapKind::Int32,
        dims,
    }))
}

// Puts the declarations, by those of the dataset of all cells, in an empty list.
#[tactic(auto, unfolding(crate::specs::Declarations::grid_decls))]
fn put_decls(
    alloc: Global,
    sides: &Sides,
    cells: &Dataset,
    decls: &mut List<Decl>,
) -> Result<(), NoMemory>
    requires { decls.old ≡ [] }
    ensures { OnOk result (decls.new
        ≡ spec.grid_decls sides.now cells.now.proto (length cells.now.rows)) }
{
    put_decls_of_vars(alloc, sides, cells, decls)?;
    decls.push(seconds_along(alloc, &sides.run)?)?;
    decls.push(seconds_along(alloc, &sides.offset)?)
}

// The declarations, by those of the dataset of all cells.
pub(crate) fn grid_decls(
    alloc: Global,
    sides: &Sides,
    cells: &Dataset,
) -> Result<List<Decl>, NoMemory>
    ensures { IfOk result (λ decls. decls
        ≡ spec.grid_decls sides.now cells.now.proto (length cells.now.rows)) }
{
    let mut decls = List::new(alloc);
    match put_decls(alloc, sides, cells, &mut decls) {
        Ok(()) => Ok(decls),
        Err(NoMemory) => {
            drop(decls);
            Err(NoMemory)
        }
    }
}
