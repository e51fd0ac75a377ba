//! A file that is taken, or the first fault of one that isn't.
ghost use Rattle.std.specs.Prelude.{◌≤◌, ◌<◌, ◌^◌, IfOk, length};
ghost use Rattle.fm_base.specs.Answer.{Answers, AnswersAs};
ghost use Rattle.nc_model.specs.Layout.{record_size};
ghost use Rattle.fm_load.specs.Loading.{load_over, loaded_as};
ghost use Rattle.fm_model.specs.Load.{load_of, Fits};
ghost use Rattle.fm_model.specs.declared.limit.TheConstants.{MAX_FILE_BYTES};

use crate::axis::{Axis, file_axis, file_header};
use crate::run::file_run;
use crate::slots::file_slots;
use crate::times::{file_times, time_count};
use crate::units::file_units;
use fm_base::{Bytes, Fail, List};
use fm_model::{LoadFault, Loaded, Proto, Slot};
use nc_array::FileView;
use std::alloc::Global;

// What is read of a file: its run, its times, and where the elements of each variable stand.
#[derive(Drop)]
struct Taken {
    run: i64,
    times: List<i64>,
    slots: List<Slot>,
}

// What is read of a file whose header has no fault.
#[tactic(auto, unfolding(crate::specs::Loading::load_over))]
fn take_over(
    alloc: Global,
    name: &[u8],
    file: &FileView<'_>,
    proto: &Proto,
) -> Result<Taken, Fail<LoadFault>>
    requires { record_size file.now.layout.header < 2 ^ 64 }
    ensures { AnswersAs (loaded_as name.now file.now.bytes)
        (load_over name.now file.now.bytes proto.now file.now.layout.header) result }
{
    let (number, var) = file_axis(alloc, proto, file)?;
    let units = file_units(var)?;
    let run = file_run(alloc, &proto.site, name, file)?;
    let axis = Axis {
        number,
        var,
        units,
        count: time_count(file.header(), var)?,
    };
    let times = file_times(alloc, &proto.site, file, &axis)?;
    let slots = file_slots(alloc, proto, file, &axis)?;
    Ok(Taken { run, times, slots })
}

// What is read of the bytes of a file.
#[tactic(auto, unfolding(fm_model::specs::Load::load_of, crate::specs::Loading::load_over))]
fn take(alloc: Global, name: &[u8], bytes: &[u8], proto: &Proto) -> Result<Taken, Fail<LoadFault>>
    requires { length bytes.now ≤ MAX_FILE_BYTES }
    ensures { AnswersAs (loaded_as name.now bytes.now) (load_of name.now bytes.now proto.now) result }
{
    let file = file_header(alloc, bytes)?;
    take_over(alloc, name, &file, proto)
}

/// Takes a file of this name with these bytes into a collection over a prototype, or returns the first fault: 1 to 14
/// of the format, 15 to 17 of units of time, 45 no time of the run, 46 a time that isn't a whole number of seconds, 47
/// one out of range, 48 one that stands twice, 49 a variable that is missing, 50 one that differs, 51 a coordinate
/// variable with other elements, 52 no times, 53 too many times, 54 and 55 a time of the run that isn't whole, or out
/// of range, 57 another unit, packing or missing value of a variable.
///
/// The bytes become the file's content and are never copied. Only the header, the times and the coordinate variables
/// are read (NetCDF Classic Format Specification; CF Conventions; THREDDS Data Server, Forecast Model Run Collections).
pub fn load(
    alloc: Global,
    name: &[u8],
    bytes: Bytes,
    proto: &Proto,
) -> Result<Loaded, Fail<LoadFault>>
    requires { length bytes ≤ MAX_FILE_BYTES }
    ensures exact { Answers (load_of name.now bytes proto.now) result }

    // What is taken fits the prototype.
    ensures fits { IfOk result (λ file. Fits file proto.now) }
{
    let copy = Bytes::copy_of(alloc, name)?;
    let Taken { run, times, slots } = take(alloc, name, bytes.as_slice(), proto)?;
    Ok(Loaded {
        name: copy,
        run,
        times,
        content: bytes,
        slots,
    })
}
