//! A file as a prototype.
ghost use Rattle.std.specs.Prelude.{◌≡◌, ◌≤◌, IfOk, length};
ghost use Rattle.fm_base.specs.Answer.{Answers, AnswersAs};
ghost use Rattle.fm_model.specs.declared.limit.TheConstants.{MAX_FILE_BYTES};
ghost use Rattle.fm_model.specs.Prototype as spec;
ghost use Rattle.fm_model.specs.Site.{IsPrototype, IsSite};
ghost use Rattle.fm_proto.specs.Checked.{proto_over};

use crate::prototype::proto_with;
use crate::steps::checked_axis;
use fm_base::{Bytes, Fail, fault_as};
use fm_file::{read_sound, reference_of};
use fm_model::{Proto, ProtoFault, Site};
use nc_array::FileView;
use nc_model::FormatFault;
use std::alloc::Global;

// A fault of a file as one of a prototype.
fn fault_of_proto(fault: FormatFault) -> ProtoFault
    ensures { result ≡ spec.fault_of_proto fault }
{
    match fault {
        FormatFault::OfHeader(fault) => ProtoFault::Header(fault),
        FormatFault::OfLayout(fault) => ProtoFault::Layout(fault),
    }
}

// A sound header, with all data in the file.
#[tactic(auto, unfolding(fm_model::specs::Prototype::proto_header))]
fn proto_header<'a>(alloc: Global, bytes: &'a [u8]) -> Result<FileView<'a>, Fail<ProtoFault>>
    ensures sound { AnswersAs (λ file. file.layout.header) (spec.proto_header bytes.now) result }
    ensures bytes { IfOk result (λ file. file.bytes ≡ bytes.now) }
{
    fault_as(read_sound(alloc, bytes), fault_of_proto)
}

// The prototype that a file is at a site, or its first fault.
#[tactic(auto, unfolding(crate::specs::Checked::proto_over))]
fn prototype_over(alloc: Global, file: &FileView<'_>, site: Site) -> Result<Proto, Fail<ProtoFault>>
    ensures { Answers (proto_over file.now.bytes site file.now.layout.header) result }
{
    let header = file.header();
    let axis = checked_axis(alloc, header)?;
    let reference = reference_of(header);
    Ok(proto_with(alloc, site, file, reference, axis)?)
}

// The prototype that some bytes are at a site, or its first fault.
#[tactic(auto, using(crate::proofs::CheckedLemmas::steps))]
fn prototype_in(alloc: Global, bytes: &[u8], site: Site) -> Result<Proto, Fail<ProtoFault>>
    ensures { Answers (spec.proto_of bytes.now site) result }
{
    let file = proto_header(alloc, bytes)?;
    prototype_over(alloc, &file, site)
}

/// Takes the bytes of a netCDF classic file as the prototype of a collection at a site, or returns the first fault: 1
/// to 14 of the format, 41 no time axis, 42 a variable with the axis's dimension elsewhere than first, 43 a name with
/// another byte than letters, digits, `_` and `-`, 44 a name that the views need, 56 a dimension without a length.
///
/// Of the file only names, attributes and the elements of variables that don't lie along the axis are copied (THREDDS
/// Data Server, Forecast Model Run Collections; CF Conventions).
pub fn read_proto(alloc: Global, bytes: Bytes, site: Site) -> Result<Proto, Fail<ProtoFault>>
    ensures exact { Answers (spec.proto_of bytes site) result }

    // Bytes within the limit, at a site that a collection may have, are a prototype for a collection.
    ensures prototype { IsSite site → length bytes ≤ MAX_FILE_BYTES → IfOk result IsPrototype }
{
    prototype_in(alloc, bytes.as_slice(), site)
}
