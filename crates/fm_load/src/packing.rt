//! Units, packing and missing values of a variable, which a file has as the prototype has them.
ghost use Rattle.fm_base.specs.Answer.{Answers};
ghost use Rattle.fm_load.specs.Compared as parts;
ghost use Rattle.fm_model.specs.Packing as spec;

use fm_base::{Bytes, Fail};
use fm_file::have_same;
use fm_model::{LoadFault, ProtoVar};
use nc_model::NcVar;
use std::alloc::Global;

// The file's variable has the prototype's attribute of this name, or both have none.
#[tactic(auto, unfolding(fm_model::specs::Packing::same_attr))]
fn same_attr(
    alloc: Global,
    wanted: &ProtoVar,
    var: &NcVar,
    name: &[u8],
) -> Result<(), Fail<LoadFault>>
    ensures { Answers (spec.same_attr wanted.now var.now name.now) result }
{
    if !have_same(wanted.attrs.as_slice(), var.attrs.as_slice(), name) {
        return Err(Fail::Fault(LoadFault::AttributeDiffers {
            name: Bytes::copy_of(alloc, wanted.name.as_slice())?,
            attribute: Bytes::copy_of(alloc, name)?,
        }));
    }
    Ok(())
}

// The same values are missing.
#[tactic(auto, unfolding(crate::specs::Compared::same_missing))]
fn same_missing(alloc: Global, wanted: &ProtoVar, var: &NcVar) -> Result<(), Fail<LoadFault>>
    ensures { Answers (parts.same_missing wanted.now var.now) result }
{
    same_attr(alloc, wanted, var, b"_FillValue".as_slice())?;
    same_attr(alloc, wanted, var, b"missing_value".as_slice())
}

// Values have the same offset, and the same are missing.
#[tactic(auto, unfolding(crate::specs::Compared::same_offset))]
fn same_offset(alloc: Global, wanted: &ProtoVar, var: &NcVar) -> Result<(), Fail<LoadFault>>
    ensures { Answers (parts.same_offset wanted.now var.now) result }
{
    same_attr(alloc, wanted, var, b"add_offset".as_slice())?;
    same_missing(alloc, wanted, var)
}

// Values are packed alike, and the same are missing.
#[tactic(auto, unfolding(crate::specs::Compared::same_scale))]
fn same_scale(alloc: Global, wanted: &ProtoVar, var: &NcVar) -> Result<(), Fail<LoadFault>>
    ensures { Answers (parts.same_scale wanted.now var.now) result }
{
    same_attr(alloc, wanted, var, b"scale_factor".as_slice())?;
    same_offset(alloc, wanted, var)
}

// The numbers of the file's variable are read as those of the prototype's.
pub(crate) fn same_packing(
    alloc: Global,
    wanted: &ProtoVar,
    var: &NcVar,
) -> Result<(), Fail<LoadFault>>
    ensures { Answers (spec.same_packing wanted.now var.now) result }
{
    same_attr(alloc, wanted, var, b"units".as_slice())?;
    same_scale(alloc, wanted, var)
}
