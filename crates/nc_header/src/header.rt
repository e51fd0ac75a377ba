//! The whole header.
ghost use Rattle.std.specs.Prelude.{◌≡◌, Ok, IfOk};
ghost use Rattle.nc_model.specs.Reading as spec;
ghost use Rattle.nc_model.specs.Reading.{Reads, header_or_fault};
ghost use Rattle.nc_model.specs.Spelling.{HeaderOf};
ghost use Rattle.fm_base.specs.Answer.{Answers, IsReadAs, OnFault};
ghost use Rattle.nc_header.specs.NoHeader.{HasNoHeader};
ghost use Rattle.nc_header.specs.Parts.{header_from};

use crate::attrs::read_attr_list;
use crate::dims::read_dim_list;
use crate::vars::read_var_list;
use fm_base::Fail;
use nc_model::{Header, HeaderFault};
use nc_reader::Reader;
use std::alloc::Global;

// Reads the lists of a header of this version with this many records.
#[tactic(auto, unfolding(crate::specs::Parts::header_from))]
fn read_lists(
    alloc: Global,
    reader: &mut Reader<'_>,
    version: u8,
    numrecs: u32,
) -> Result<Header, Fail<HeaderFault>>
    ensures { Reads (λ header. header) (header_from version numrecs reader.old) result reader.new }
{
    let dims = read_dim_list(alloc, reader)?;
    let attrs = read_attr_list(alloc, reader)?;
    let vars = read_var_list(alloc, reader, version, dims.as_slice())?;
    Ok(Header {
        version,
        numrecs,
        dims,
        attrs,
        vars,
    })
}

#[tactic(auto, unfolding(nc_model::specs::Reading::header_at, crate::specs::Parts::header_from))]
fn read_fields(alloc: Global, reader: &mut Reader<'_>) -> Result<Header, Fail<HeaderFault>>
    ensures { Reads (λ header. header) (spec.header_at reader.old) result reader.new }
{
    let version = reader.version()?;
    let numrecs = reader.numrecs()?;
    read_lists(alloc, reader, version, numrecs)
}

/// The header that a file in the netCDF classic format begins with (CDF-1 or CDF-2), or its first fault in the order
/// of the fields in the file, with the offset of the field at fault.
///
/// A count in the file takes no memory by itself: each list grows as its items are read.
#[tactic(auto, using(nc_model::proofs::HeaderLaws::header_laws), unfolding(nc_model::specs::Reading::header_or_fault))]
pub fn read_header(alloc: Global, bytes: &[u8]) -> Result<Header, Fail<HeaderFault>>
    ensures exact { Answers (header_or_fault bytes.now) result }

    // What is read is spelled so, what is spelled so is read, and bytes with a fault spell no header.
    ensures spelled { IfOk result (HeaderOf bytes.now) }
    ensures read { (h : _) → HeaderOf bytes.now h → IsReadAs h result }
    ensures refused { OnFault result (HasNoHeader bytes.now) }

    // A sound header stands exactly where reading finds it, free of what this call returns.
    ensures stands { (h : _) → (HeaderOf bytes.now h → header_or_fault bytes.now ≡ Ok h)
        × (header_or_fault bytes.now ≡ Ok h → HeaderOf bytes.now h) }

    // Bytes spell one header at most.
    ensures one { (h other : _) → HeaderOf bytes.now h → HeaderOf bytes.now other → h ≡ other }
{
    let mut reader = Reader::new(bytes);
    read_fields(alloc, &mut reader)
}
