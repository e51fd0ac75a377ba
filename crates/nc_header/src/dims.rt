//! The list of the dimensions.
ghost use Rattle.std.specs.Prelude.{◌≡◌, []};
ghost use Rattle.nc_model.specs.Format.{DIMENSION_TAG, has_record_dim};
ghost use Rattle.nc_model.specs.Reading as spec;
ghost use Rattle.nc_model.specs.Reading.{Reads};
ghost use Rattle.nc_header.specs.Turns.{one_more};

use crate::found::Found;
use crate::names::read_name;
use fm_base::{Bytes, Fail, List};
use nc_model::{Dim, HeaderFault};
use nc_reader::Reader;
use std::alloc::Global;

// The tag of the list.
const TAG: u32 = 10;

#[tactic(auto, unfolding(nc_model::specs::Format::has_record_dim))]
fn has_record_dim(dims: &[Dim]) -> bool
    ensures { result ≡ has_record_dim dims.now }
{
    dims.iter().any(|dim| dim.size == 0)
}

#[tactic(auto, unfolding(nc_model::specs::Reading::dim_size))]
fn read_size(reader: &mut Reader<'_>, found: &[Dim]) -> Result<u32, Fail<HeaderFault>>
    ensures { Reads (λ size. size) (spec.dim_size found.now reader.old) result reader.new }
{
    let offset = reader.at();
    let size = reader.count()?;
    if size == 0 && has_record_dim(found) {
        return Err(Fail::Fault(HeaderFault::TwoRecordDims(offset)));
    }
    Ok(size)
}

#[tactic(auto, unfolding(nc_model::specs::Reading::dim_at, crate::specs::Turns::one_more))]
fn read_dim<'a>(
    alloc: Global,
    reader: &mut Reader<'a>,
    found: &mut Found<'a, Dim>,
) -> Result<(), Fail<HeaderFault>>
    ensures { Reads (λ _. found.new)
        (one_more spec.dim_at found.old reader.old) result reader.new }
{
    let name = read_name(reader, found)?;
    let size = read_size(reader, found.as_slice())?;
    let dim = Dim {
        name: Bytes::copy_of(alloc, name)?,
        size: u64::from(size),
    };
    found.push(name, dim)?;
    Ok(())
}

#[tactic(auto, using(crate::proofs::TurnLemmas::turns))]
fn read_dims(
    alloc: Global,
    reader: &mut Reader<'_>,
    count: u32,
) -> Result<List<Dim>, Fail<HeaderFault>>
    ensures { Reads (λ dims. dims)
        (spec.items_from spec.dim_at count [] reader.old) result reader.new }
{
    let mut found = Found::new(alloc);
    for _turn in 0..count {
        read_dim(alloc, reader, &mut found)?;
    }
    Ok(found.into_list())
}

// Reads the list of the dimensions.
#[tactic(auto, unfolding(nc_model::specs::Reading::list_at))]
pub(crate) fn read_dim_list(
    alloc: Global,
    reader: &mut Reader<'_>,
) -> Result<List<Dim>, Fail<HeaderFault>>
    ensures { Reads (λ dims. dims)
        (spec.list_at DIMENSION_TAG spec.dim_at reader.old) result reader.new }
{
    let tag = reader.tag(TAG)?;
    let count = reader.list_count(tag)?;
    read_dims(alloc, reader, count)
}
