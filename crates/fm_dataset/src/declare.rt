//! The declarations of a view.
ghost use Rattle.std.specs.Prelude.{◌≡◌, ◌++◌, ◌∷◌, [], IfOk, OnOk, map};
ghost use Rattle.fm_model.specs.Prototype.{offset_name, run_name};
ghost use Rattle.fm_dataset.specs.Declarations as spec;
ghost use Rattle.fm_dataset.specs.Kept.{HasCoordinates};

use crate::array::{array_dims, array_of, rows_dim};
use crate::grid::may_be_grid;
use crate::table::{coordinate_at, coordinate_numbers};
use dap_model::{Array, DapKind, Decl};
use fm_base::{Bytes, List, NoMemory};
use fm_model::{Proto, ProtoVar};
use std::alloc::Global;

/// A prototype beside the numbers of the coordinate variables of its dimensions.
#[derive(Clone, Copy)]
pub(crate) struct Charted<'a> {
    pub proto: &'a Proto,
    pub coordinates: &'a [usize],
}

// Adds the array of the coordinate variable of a dimension, where it has one.
#[tactic(auto, using(crate::proofs::CoordinateLemmas::shown_coordinates))]
fn put_map(
    alloc: Global,
    of: &Charted<'_>,
    count: u64,
    id: u32,
    maps: &mut List<Array>,
) -> Result<(), NoMemory>
    requires { HasCoordinates of.now.proto.now of.now.coordinates.now }
    ensures { OnOk result (maps.new
        ≡ maps.old ++ map (spec.array_of of.now.proto.now count) (spec.coordinates_of of.now.proto.now (id ∷ []))) }
{
    match coordinate_at(of.proto, of.coordinates, id) {
        None => Ok(()),
        Some(var) => maps.push(array_of(alloc, of.proto, count, var)?),
    }
}

// The arrays of the coordinate variables of the dimensions of these numbers, where each has one.
#[tactic(auto, using(crate::proofs::FindLemmas::shown_more), unfolding(crate::specs::Declarations::coordinates_of))]
fn maps_of(
    alloc: Global,
    of: &Charted<'_>,
    count: u64,
    ids: &[u32],
) -> Result<List<Array>, NoMemory>
    requires { HasCoordinates of.now.proto.now of.now.coordinates.now }
    ensures { IfOk result (λ maps. maps
        ≡ map (spec.array_of of.now.proto.now count) (spec.coordinates_of of.now.proto.now ids.now)) }
{
    let mut maps = List::new(alloc);
    for id in ids {
        put_map(alloc, of, count, *id, &mut maps)?;
    }
    Ok(maps)
}

// The declaration of a variable.
#[tactic(auto, unfolding(crate::specs::Declarations::decl_of, crate::specs::Declarations::is_grid, crate::specs::Declarations::maps_of))]
fn decl_of(alloc: Global, of: &Charted<'_>, count: u64, var: &ProtoVar) -> Result<Decl, NoMemory>
    requires { HasCoordinates of.now.proto.now of.now.coordinates.now }
    ensures { IfOk result (λ decl. decl ≡ spec.decl_of of.now.proto.now count var.now) }
{
    let array = array_of(alloc, of.proto, count, var)?;
    if may_be_grid(of.proto, var) {
        let ids = array_dims(var);
        let maps = maps_of(alloc, of, count, ids)?;
        if maps.len() == ids.len() {
            let name = Bytes::copy_of(alloc, var.name.as_slice())?;
            return Ok(Decl::Grid { name, array, maps });
        }
    }
    Ok(Decl::Plain(array))
}

// The axis's name with some bytes after it.
fn name_with(alloc: Global, axis: &[u8], after: &[u8]) -> Result<Bytes, NoMemory>
    ensures { IfOk result (λ name. name ≡ axis.now ++ after.now) }
{
    let mut name = Bytes::copy_of(alloc, axis)?;
    name.append(after)?;
    Ok(name)
}

// Whole seconds of each row, under a name that the views add.
#[tactic(auto, unfolding(crate::specs::Declarations::seconds_of_rows))]
fn seconds_of_rows(alloc: Global, proto: &Proto, count: u64, name: Bytes) -> Result<Decl, NoMemory>
    ensures { IfOk result (λ decl. decl ≡ spec.seconds_of_rows proto.now count name) }
{
    let mut dims = List::new(alloc);
    dims.push(rows_dim(alloc, proto, count)?)?;
    Ok(Decl::Plain(Array {
        name,
        kind: DapKind::Int32,
        dims,
    }))
}

// Adds whole seconds of each row, under the axis's name with some bytes after it.
fn put_seconds(
    alloc: Global,
    proto: &Proto,
    count: u64,
    after: &[u8],
    decls: &mut List<Decl>,
) -> Result<(), NoMemory>
    ensures { OnOk result (decls.new
        ≡ decls.old ++ spec.seconds_of_rows proto.now count (proto.now.axis ++ after.now) ∷ []) }
{
    let name = name_with(alloc, proto.axis.as_slice(), after)?;
    decls.push(seconds_of_rows(alloc, proto, count, name)?)
}

// The declarations of the variables, with room for those of the runs and the offsets.
fn decls_of_vars(alloc: Global, of: &Charted<'_>, count: u64) -> Result<List<Decl>, NoMemory>
    requires { HasCoordinates of.now.proto.now of.now.coordinates.now }
    ensures { IfOk result (λ decls. decls ≡ map (spec.decl_of of.now.proto.now count) of.now.proto.now.vars) }
{
    let vars = of.proto.vars.as_slice();
    let items = Vec::with_capacity(alloc, vars.len().saturating_add(2))?;
    let mut decls = List { items };
    for var in vars {
        decls.push(decl_of(alloc, of, count, var)?)?;
    }
    Ok(decls)
}

// The declarations of a view of a prototype's collection with this many rows.
#[tactic(auto, unfolding(crate::specs::Declarations::decls_of, fm_model::specs::Prototype::run_name, fm_model::specs::Prototype::offset_name))]
pub(crate) fn decls_in(alloc: Global, of: &Charted<'_>, count: u64) -> Result<List<Decl>, NoMemory>
    requires { HasCoordinates of.now.proto.now of.now.coordinates.now }
    ensures { IfOk result (λ decls. decls ≡ spec.decls_of of.now.proto.now count) }
{
    let mut decls = decls_of_vars(alloc, of, count)?;
    put_seconds(alloc, of.proto, count, b"_run", &mut decls)?;
    put_seconds(alloc, of.proto, count, b"_offset", &mut decls)?;
    Ok(decls)
}

/// The declarations of a view of a prototype's collection with this many rows: the prototype's variables in their
/// order, and then the run and the offset of each row. They are not of any particular rows.
///
/// A variable is a Grid where its array has a dimension, none of them twice, each has a coordinate variable among the
/// prototype's, and it is no coordinate variable itself (ESE-RFC-004, Grid). Characters along the last dimension are
/// one text. The axis, the runs and the offsets are whole seconds.
pub fn decls(alloc: Global, proto: &Proto, count: u64) -> Result<List<Decl>, NoMemory>
    ensures { IfOk result (λ decls. decls ≡ spec.decls_of proto.now count) }
{
    let coordinates = coordinate_numbers(alloc, proto)?;
    let of = Charted {
        proto,
        coordinates: coordinates.as_slice(),
    };
    decls_in(alloc, &of, count)
}
