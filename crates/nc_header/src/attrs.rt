//! Lists of attributes, of the file and of a variable.
ghost use Rattle.std.specs.Prelude.{◌≡◌, [], IfOk};
ghost use Rattle.nc_model.specs.Format.{ATTRIBUTE_TAG};
ghost use Rattle.nc_model.specs.Reading as spec;
ghost use Rattle.nc_model.specs.Reading.{Reads};
ghost use Rattle.nc_header.specs.Parts.{attr_from};
ghost use Rattle.nc_header.specs.Turns.{one_more};

use crate::found::Found;
use crate::names::read_name;
use fm_base::{Bytes, Fail, List};
use nc_model::{Attr, HeaderFault};
use nc_reader::Reader;
use std::alloc::Global;

// The tag of the list.
const TAG: u32 = 12;

// Reads an attribute from its kind on.
#[tactic(auto, unfolding(crate::specs::Parts::attr_from))]
fn read_rest(alloc: Global, reader: &mut Reader<'_>, name: &[u8]) -> Result<Attr, Fail<HeaderFault>>
    ensures read { Reads (λ attr. attr) (attr_from name.now reader.old) result reader.new }
    ensures name { IfOk result (λ attr. attr.name ≡ name.now) }
{
    let kind = reader.kind()?;
    let count = reader.count()?;
    let values = reader.padded(u64::from(count) * u64::from(kind.size()))?;
    Ok(Attr {
        name: Bytes::copy_of(alloc, name)?,
        kind,
        values: Bytes::copy_of(alloc, values)?,
    })
}

#[tactic(auto, unfolding(nc_model::specs::Reading::attr_at, crate::specs::Turns::one_more, crate::specs::Parts::attr_from))]
fn read_attr<'a>(
    alloc: Global,
    reader: &mut Reader<'a>,
    found: &mut Found<'a, Attr>,
) -> Result<(), Fail<HeaderFault>>
    ensures { Reads (λ _. found.new)
        (one_more spec.attr_at found.old reader.old) result reader.new }
{
    let name = read_name(reader, found)?;
    let attr = read_rest(alloc, reader, name)?;
    found.push(name, attr)?;
    Ok(())
}

#[tactic(auto, using(crate::proofs::TurnLemmas::turns))]
fn read_attrs(
    alloc: Global,
    reader: &mut Reader<'_>,
    count: u32,
) -> Result<List<Attr>, Fail<HeaderFault>>
    ensures { Reads (λ attrs. attrs)
        (spec.items_from spec.attr_at count [] reader.old) result reader.new }
{
    let mut found = Found::new(alloc);
    for _turn in 0..count {
        read_attr(alloc, reader, &mut found)?;
    }
    Ok(found.into_list())
}

// Reads a list of attributes.
#[tactic(auto, unfolding(nc_model::specs::Reading::list_at))]
pub(crate) fn read_attr_list(
    alloc: Global,
    reader: &mut Reader<'_>,
) -> Result<List<Attr>, Fail<HeaderFault>>
    ensures { Reads (λ attrs. attrs)
        (spec.list_at ATTRIBUTE_TAG spec.attr_at reader.old) result reader.new }
{
    let tag = reader.tag(TAG)?;
    let count = reader.list_count(tag)?;
    read_attrs(alloc, reader, count)
}
