//! The header of a file that is to be taken, and its axis.
ghost use Rattle.std.specs.Prelude.{◌≡◌, ◌≤◌, ◌<◌, ◌^◌, IfOk, length, not, true};
ghost use Rattle.fm_base.specs.Answer.{Answers, AnswersAs};
ghost use Rattle.fm_base.specs.Chain.{refuse_if};
ghost use Rattle.nc_model.specs.Layout.{record_size};
ghost use Rattle.fm_model.specs.LoadAxis as spec;
ghost use Rattle.fm_model.specs.declared.loaded.LoadFault.TheVariants.{VariableDiffers};
ghost use Rattle.fm_model.specs.declared.limit.TheConstants.{MAX_FILE_BYTES};
ghost use Rattle.nc_layout.specs.LaidOut.{IsVar};

use fm_base::{Bytes, Fail, fault_as};
use fm_file::{is_coordinate, read_sound, var_number};
use fm_model::{LoadFault, Proto};
use nc_array::FileView;
use nc_model::{FormatFault, NcVar, Units};
use std::alloc::Global;

// The axis of a file: its variable with its number, the units of its values, and their count.
#[derive(Clone, Copy)]
pub(crate) struct Axis<'a> {
    pub(crate) number: u32,
    pub(crate) var: &'a NcVar,
    pub(crate) units: Units,
    pub(crate) count: u32,
}

// A fault of a file as one of loading it.
fn fault_of_load(fault: FormatFault) -> LoadFault
    ensures { result ≡ spec.fault_of_load fault }
{
    match fault {
        FormatFault::OfHeader(fault) => LoadFault::Header(fault),
        FormatFault::OfLayout(fault) => LoadFault::Layout(fault),
    }
}

// The header of a file that has no fault, laid out.
#[tactic(auto, unfolding(fm_model::specs::LoadAxis::file_header))]
pub(crate) fn file_header<'a>(
    alloc: Global,
    bytes: &'a [u8],
) -> Result<FileView<'a>, Fail<LoadFault>>
    requires { length bytes.now ≤ MAX_FILE_BYTES }
    ensures sound { AnswersAs (λ file. file.layout.header) (spec.file_header bytes.now) result }
    ensures bytes { IfOk result (λ file. file.bytes ≡ bytes.now) }
    ensures small { IfOk result (λ file. record_size file.layout.header < 2 ^ 64) }
{
    fault_as(read_sound(alloc, bytes), fault_of_load)
}

// The file's variable of this name, with its number.
#[tactic(auto, unfolding(fm_model::specs::LoadAxis::file_var))]
pub(crate) fn file_var<'a>(
    alloc: Global,
    file: &'a FileView<'_>,
    name: &[u8],
) -> Result<(u32, &'a NcVar), Fail<LoadFault>>
    ensures found { AnswersAs (λ found. found.1.now) (spec.file_var file.now.layout.header name.now) result }
    ensures number { IfOk result (λ found. IsVar file.now.layout found.0 found.1.now) }
{
    match var_number(file.header(), name) {
        Some(number) => {
            let number = number as u32;
            Ok((number, file.var(number)))
        }
        None => {
            let name = Bytes::copy_of(alloc, name)?;
            Err(Fail::Fault(LoadFault::MissingVariable(name)))
        }
    }
}

// Nothing, where a variable of this name is alike, or the fault that it differs.
pub(crate) fn unless_alike(alloc: Global, alike: bool, name: &[u8]) -> Result<(), Fail<LoadFault>>
    ensures exact { Answers (refuse_if (not alike) (VariableDiffers name.now)) result }
    ensures alike { IfOk result (λ _. alike ≡ true) }
{
    if alike {
        return Ok(());
    }
    let name = Bytes::copy_of(alloc, name)?;
    Err(Fail::Fault(LoadFault::VariableDiffers(name)))
}

// The file's axis, with its number: the variable with the name of the prototype's axis, which is a coordinate variable.
#[tactic(auto, using(crate::proofs::LengthLemmas::axes), unfolding(fm_model::specs::LoadAxis::file_axis))]
pub(crate) fn file_axis<'a>(
    alloc: Global,
    proto: &Proto,
    file: &'a FileView<'_>,
) -> Result<(u32, &'a NcVar), Fail<LoadFault>>
    ensures found { AnswersAs (λ found. found.1.now) (spec.file_axis proto.now file.now.layout.header) result }
    ensures number { IfOk result (λ found. IsVar file.now.layout found.0 found.1.now) }
    ensures rank { IfOk result (λ found. length found.1.now.dims ≡ 1) }
{
    let name = proto.axis.as_slice();
    let (number, axis) = file_var(alloc, file, name)?;
    let dims = file.header().dims.as_slice();
    let alike = is_coordinate(dims, axis.name.as_slice(), axis.kind, axis.dims.as_slice());
    unless_alike(alloc, alike, name)?;
    Ok((number, axis))
}
