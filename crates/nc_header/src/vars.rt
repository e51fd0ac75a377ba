//! The list of the variables.
ghost use Rattle.std.specs.Prelude.{◌≡◌, [], IfOk};
ghost use Rattle.nc_model.specs.Format.{VARIABLE_TAG};
ghost use Rattle.nc_model.specs.Reading as spec;
ghost use Rattle.nc_model.specs.Reading.{Reads};
ghost use Rattle.nc_header.specs.Turns.{one_more};
ghost use Rattle.nc_header.specs.Parts.{var_from};

use crate::attrs::read_attr_list;
use crate::found::Found;
use crate::names::read_name;
use fm_base::{Bytes, Fail, List};
use nc_model::{Attr, Dim, HeaderFault, NcVar};
use nc_reader::Reader;
use std::alloc::Global;

// The tag of the list.
const TAG: u32 = 11;

#[tactic(auto, unfolding(nc_model::specs::Reading::dim_id_at, nc_model::specs::Reading::names_record_dim))]
fn read_dim_id(
    reader: &mut Reader<'_>,
    dims: &[Dim],
    found: &List<u32>,
) -> Result<u32, Fail<HeaderFault>>
    ensures { Reads (λ id. id) (spec.dim_id_at dims.now found.now reader.old) result reader.new }
{
    let offset = reader.at();
    let id = reader.word()?;
    if dims.len() as u64 <= u64::from(id) {
        return Err(Fail::Fault(HeaderFault::BadDimId(offset)));
    }
    if !found.is_empty() && dims[id as usize].size == 0 {
        return Err(Fail::Fault(HeaderFault::RecordNotFirst(offset)));
    }
    Ok(id)
}

#[tactic(auto, using(crate::proofs::TurnLemmas::turns))]
fn read_dim_ids(
    alloc: Global,
    reader: &mut Reader<'_>,
    dims: &[Dim],
    rank: u32,
) -> Result<List<u32>, Fail<HeaderFault>>
    ensures { Reads (λ ids. ids)
        (spec.items_from (spec.dim_id_at dims.now) rank [] reader.old) result reader.new }
{
    let mut found = List::new(alloc);
    for _turn in 0..rank {
        let id = read_dim_id(reader, dims, &found)?;
        found.push(id)?;
    }
    Ok(found)
}

// Reads a variable from its kind on.
#[tactic(auto, unfolding(crate::specs::Parts::var_from))]
fn read_rest(
    alloc: Global,
    reader: &mut Reader<'_>,
    version: u8,
    name: &[u8],
    ids: List<u32>,
    attrs: List<Attr>,
) -> Result<NcVar, Fail<HeaderFault>>
    ensures read { Reads (λ var. var) (var_from version name.now ids attrs reader.old) result reader.new }
    ensures name { IfOk result (λ var. var.name ≡ name.now) }
{
    let kind = reader.kind()?;
    let _size = reader.take(4)?;
    let begin = reader.begin(version)?;
    Ok(NcVar {
        name: Bytes::copy_of(alloc, name)?,
        dims: ids,
        attrs,
        kind,
        begin,
    })
}

#[tactic(auto, unfolding(nc_model::specs::Reading::var_at, crate::specs::Turns::one_more, crate::specs::Parts::var_from))]
fn read_var<'a>(
    alloc: Global,
    reader: &mut Reader<'a>,
    version: u8,
    dims: &[Dim],
    found: &mut Found<'a, NcVar>,
) -> Result<(), Fail<HeaderFault>>
    ensures { Reads (λ _. found.new)
        (one_more (spec.var_at version dims.now) found.old reader.old) result reader.new }
{
    let name = read_name(reader, found)?;
    let rank = reader.rank()?;
    let ids = read_dim_ids(alloc, reader, dims, rank)?;
    let attrs = read_attr_list(alloc, reader)?;
    let var = read_rest(alloc, reader, version, name, ids, attrs)?;
    found.push(name, var)?;
    Ok(())
}

#[tactic(auto, using(crate::proofs::TurnLemmas::turns))]
fn read_vars(
    alloc: Global,
    reader: &mut Reader<'_>,
    version: u8,
    dims: &[Dim],
    count: u32,
) -> Result<List<NcVar>, Fail<HeaderFault>>
    ensures { Reads (λ vars. vars)
        (spec.items_from (spec.var_at version dims.now) count [] reader.old) result reader.new }
{
    let mut found = Found::new(alloc);
    for _turn in 0..count {
        read_var(alloc, reader, version, dims, &mut found)?;
    }
    Ok(found.into_list())
}

// Reads the list of the variables of a file with these dimensions.
#[tactic(auto, unfolding(nc_model::specs::Reading::list_at))]
pub(crate) fn read_var_list(
    alloc: Global,
    reader: &mut Reader<'_>,
    version: u8,
    dims: &[Dim],
) -> Result<List<NcVar>, Fail<HeaderFault>>
    ensures { Reads (λ vars. vars)
        (spec.list_at VARIABLE_TAG (spec.var_at version dims.now) reader.old) result reader.new }
{
    let tag = reader.tag(TAG)?;
    let count = reader.list_count(tag)?;
    read_vars(alloc, reader, version, dims, count)
}
