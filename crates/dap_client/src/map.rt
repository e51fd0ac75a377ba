//! The maps of a Grid.
ghost use Rattle.std.specs.Prelude.{◌≡◌, ◌++◌, IfOk, OnOk};
ghost use Rattle.dap_model.specs.StructureText.{dim_text, indent};
ghost use Rattle.dap_client.specs.Message.{map_of};
ghost use Rattle.dap_client.specs.Reading.{Reads};
ghost use Rattle.dap_client.specs.TextReading as text;

use crate::cursor::Cursor;
use crate::kind::read_kind;
use dap_model::{Array, DapKind};
use fm_base::{Bytes, Fail, List, NoMemory, put_decimal};
use nc_model::Dim;
use std::alloc::Global;

// Writes a dimension with its length.
#[tactic(auto, unfolding(dap_model::specs::StructureText::dim_text))]
fn put_dim(alloc: Global, dim: &Dim, out: &mut Bytes) -> Result<(), NoMemory>
    ensures { OnOk result (out.new ≡ out.old ++ dim_text dim.now) }
{
    out.append(b"[")?;
    out.append(dim.name.as_slice())?;
    out.append(b" = ")?;
    put_decimal(alloc, i128::from(dim.size), out)?;
    out.append(b"]")
}

// What stands between the kind of a map and the end of its line.
#[tactic(auto, unfolding(crate::specs::TextReading::map_end))]
fn map_end(alloc: Global, dim: &Dim) -> Result<Bytes, NoMemory>
    ensures { IfOk result (λ end. end ≡ text.map_end dim.now) }
{
    let mut end = Bytes::copy_of(alloc, dim.name.as_slice())?;
    put_dim(alloc, dim, &mut end)?;
    end.append(b";\n")?;
    Ok(end)
}

// A copy of a dimension.
fn copy_of(alloc: Global, dim: &Dim) -> Result<Dim, NoMemory>
    ensures { IfOk result (λ copy. copy ≡ dim.now) }
{
    Ok(Dim {
        name: Bytes::copy_of(alloc, dim.name.as_slice())?,
        size: dim.size,
    })
}

// The map of a dimension.
fn map_of(alloc: Global, dim: &Dim, kind: DapKind) -> Result<Array, NoMemory>
    ensures { IfOk result (λ array. array ≡ map_of dim.now kind) }
{
    let name = Bytes::copy_of(alloc, dim.name.as_slice())?;
    let dim = copy_of(alloc, dim)?;
    let mut dims = List::new(alloc);
    dims.push(dim)?;
    Ok(Array { name, kind, dims })
}

// Reads the map of a dimension.
#[tactic(auto, unfolding(crate::specs::TextReading::map_at, dap_model::specs::StructureText::indent))]
fn read_map(alloc: Global, cursor: &mut Cursor<'_>, dim: &Dim) -> Result<Array, Fail<u64>>
    ensures { Reads (λ array. array) (text.map_at dim.now cursor.old) result cursor.new }
{
    cursor.fixed(b"            ")?;
    let kind = read_kind(cursor)?;
    let end = map_end(alloc, dim)?;
    cursor.fixed(end.as_slice())?;
    Ok(map_of(alloc, dim, kind)?)
}

// Reads the maps of dimensions, in their order.
#[tactic(auto, using(crate::proofs::TurnLemmas::each_in_turn), unfolding(crate::specs::TextReading::maps_at))]
pub(crate) fn read_maps(
    alloc: Global,
    cursor: &mut Cursor<'_>,
    dims: &[Dim],
) -> Result<List<Array>, Fail<u64>>
    ensures { Reads (λ maps. maps) (text.maps_at dims.now cursor.old) result cursor.new }
{
    let mut maps = List::new(alloc);
    for dim in dims {
        let map = read_map(alloc, cursor, dim)?;
        maps.push(map)?;
    }
    Ok(maps)
}
