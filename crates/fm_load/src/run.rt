//! The run of a file: by the variable of the run's time where there is one, else by the mark in the file's name.
ghost use Rattle.std.specs.Prelude.{◌≡◌, IfOk, map};
ghost use Rattle.fm_base.specs.Answer.{Answers};
ghost use Rattle.fm_model.specs.LoadTimes as spec;
ghost use Rattle.nc_layout.specs.LaidOut.{IsVar};

use crate::lengths::has_one_element;
use crate::units::{file_units, from_epoch, is_instant, seconds_at};
use fm_base::{Fail, List, NoMemory};
use fm_file::{is_char, reference_number};
use fm_model::{LoadFault, Site};
use nc_array::FileView;
use nc_model::{Header, NcVar};
use std::alloc::Global;
use tm_units::read_mark;

#[tactic(auto, unfolding(fm_model::specs::LoadTimes::run_in_range))]
fn run_in_range(seconds: i128) -> Result<i64, Fail<LoadFault>>
    ensures { Answers (spec.run_in_range seconds) result }
{
    if !is_instant(seconds) {
        return Err(Fail::Fault(LoadFault::RunRange(seconds)));
    }
    Ok(seconds as i64)
}

// Whether a variable is one number.
#[tactic(auto, unfolding(fm_model::specs::LoadTimes::is_one_number))]
fn is_one_number(header: &Header, var: &NcVar) -> bool
    ensures { result ≡ spec.is_one_number header.now var.now }
{
    !is_char(var.kind) && has_one_element(header, var.dims.as_slice())
}

// The index list of the first element of a variable of these dimensions.
fn first_index(alloc: Global, ids: &[u32]) -> Result<List<u64>, NoMemory>
    ensures { IfOk result (λ index. index ≡ map (λ id. 0) ids.now) }
{
    let mut index = List::new(alloc);
    for _id in ids {
        index.push(0)?;
    }
    Ok(index)
}

// The run by the variable of the run's time: its only element.
#[tactic(auto, unfolding(fm_model::specs::LoadTimes::run_by_variable))]
fn run_by_variable(
    alloc: Global,
    site: &Site,
    file: &FileView<'_>,
    number: u32,
    var: &NcVar,
) -> Result<i64, Fail<LoadFault>>
    requires { IsVar file.now.layout number var.now }
    ensures { Answers (spec.run_by_variable site.now file.now.bytes file.now.layout.header var.now) result }
{
    if !is_one_number(file.header(), var) {
        return Err(Fail::Fault(LoadFault::NoRunTime));
    }
    let units = file_units(var)?;
    let index = first_index(alloc, var.dims.as_slice())?;
    match seconds_at(file, number, var, units, index.as_slice()) {
        None => Err(Fail::Fault(LoadFault::RunNotWhole)),
        Some(seconds) => run_in_range(from_epoch(site, units, seconds)),
    }
}

// The run by the mark in the file's name.
#[tactic(auto, unfolding(fm_model::specs::LoadTimes::run_by_name))]
fn run_by_name(site: &Site, name: &[u8]) -> Result<i64, Fail<LoadFault>>
    ensures { Answers (spec.run_by_name site.now name.now) result }
{
    match read_mark(name, site.mark.as_slice()) {
        None => Err(Fail::Fault(LoadFault::NoRunTime)),
        Some(moment) => run_in_range(i128::from(moment) - i128::from(site.epoch)),
    }
}

// The run of a file, in seconds from the collection's epoch: the only element of the variable of the run's time where
// there is one, else what the mark in the file's name says (THREDDS Data Server, run time of a file).
#[tactic(auto, unfolding(fm_model::specs::LoadTimes::file_run))]
pub(crate) fn file_run(
    alloc: Global,
    site: &Site,
    name: &[u8],
    file: &FileView<'_>,
) -> Result<i64, Fail<LoadFault>>
    ensures { Answers (spec.file_run site.now name.now file.now.bytes file.now.layout.header) result }
{
    match reference_number(file.header()) {
        None => run_by_name(site, name),
        Some(number) => {
            let number = number as u32;
            run_by_variable(alloc, site, file, number, file.var(number))
        }
    }
}
