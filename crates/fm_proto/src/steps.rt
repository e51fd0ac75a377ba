//! The steps that decide whether a file is a prototype, in their order, each with its fault.
ghost use Rattle.fm_base.specs.Answer.{Answers, AnswersAs};
ghost use Rattle.fm_model.specs.Prototype as spec;
ghost use Rattle.fm_proto.specs.Checked as checked;
ghost use Rattle.fm_proto.specs.Kept.{IsReferenceOf};

use crate::faults::{first_bad_name, first_empty, first_misplaced, first_taken};
use fm_base::{Bytes, Fail};
use fm_file::{axis_of, reference_of};
use fm_model::ProtoFault;
use nc_model::{Header, NcVar};
use std::alloc::Global;

// There is a time axis.
#[tactic(auto, unfolding(fm_model::specs::Prototype::proto_axis))]
fn proto_axis(header: &Header) -> Result<&NcVar, Fail<ProtoFault>>
    ensures { AnswersAs (λ axis. axis.now) (spec.proto_axis header.now) result }
{
    match axis_of(header) {
        Some(axis) => Ok(axis),
        None => Err(Fail::Fault(ProtoFault::NoTimeAxis)),
    }
}

// Each variable that lies along the axis has the axis's dimension first, and once.
#[tactic(auto, unfolding(fm_model::specs::Prototype::time_stands_first))]
fn time_stands_first(alloc: Global, header: &Header, axis: &NcVar) -> Result<(), Fail<ProtoFault>>
    ensures { Answers (spec.time_stands_first header.now axis.now) result }
{
    match first_misplaced(header, axis) {
        None => Ok(()),
        Some(var) => {
            let name = Bytes::copy_of(alloc, var.name.as_slice())?;
            Err(Fail::Fault(ProtoFault::TimeNotFirst(name)))
        }
    }
}

// All names of dimensions and variables are of letters, digits, `_` and `-`.
#[tactic(auto, unfolding(fm_model::specs::Prototype::names_are_plain))]
fn names_are_plain(alloc: Global, header: &Header) -> Result<(), Fail<ProtoFault>>
    ensures { Answers (spec.names_are_plain header.now) result }
{
    match first_bad_name(header) {
        None => Ok(()),
        Some(name) => {
            let name = Bytes::copy_of(alloc, name)?;
            Err(Fail::Fault(ProtoFault::BadProtoName(name)))
        }
    }
}

// No variable that the views show has a name under which they show the run or the offset of each row.
#[tactic(auto, unfolding(fm_model::specs::Prototype::names_are_free))]
fn names_are_free(
    alloc: Global,
    header: &Header,
    reference: Option<&NcVar>,
    axis: &NcVar,
) -> Result<(), Fail<ProtoFault>>
    requires { IsReferenceOf header.now reference }
    ensures { Answers (spec.names_are_free header.now axis.now) result }
{
    match first_taken(header, reference, axis) {
        None => Ok(()),
        Some(var) => {
            let name = Bytes::copy_of(alloc, var.name.as_slice())?;
            Err(Fail::Fault(ProtoFault::NameTaken(name)))
        }
    }
}

// Each dimension other than the axis's has a length.
#[tactic(auto, unfolding(fm_model::specs::Prototype::dims_have_lengths))]
fn dims_have_lengths(alloc: Global, header: &Header, axis: &NcVar) -> Result<(), Fail<ProtoFault>>
    ensures { Answers (spec.dims_have_lengths header.now axis.now) result }
{
    match first_empty(header, axis) {
        None => Ok(()),
        Some(dim) => {
            let name = Bytes::copy_of(alloc, dim.name.as_slice())?;
            Err(Fail::Fault(ProtoFault::EmptyDimension(name)))
        }
    }
}

// The axis of a header that passes each step, or the first fault.
#[tactic(auto, unfolding(crate::specs::Checked::checked_axis))]
pub(crate) fn checked_axis(alloc: Global, header: &Header) -> Result<&NcVar, Fail<ProtoFault>>
    ensures { AnswersAs (λ axis. axis.now) (checked.checked_axis header.now) result }
{
    let axis = proto_axis(header)?;
    time_stands_first(alloc, header, axis)?;
    names_are_plain(alloc, header)?;
    names_are_free(alloc, header, reference_of(header), axis)?;
    dims_have_lengths(alloc, header, axis)?;
    Ok(axis)
}
