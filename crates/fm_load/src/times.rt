//! The valid times of a file.
ghost use Rattle.std.specs.Prelude.{◌≡◌, ◌≤ℤ◌, ◌<◌, ◌∷◌, [], All, IfOk, length};
ghost use Rattle.std.specs.List.{list_any};
ghost use Rattle.std.specs.Ordering.{int_eq};
ghost use Rattle.fm_base.specs.Answer.{Answers};
ghost use Rattle.nc_model.specs.Layout.{shape_of, size_at};
ghost use Rattle.fm_model.specs.LoadTimes as spec;
ghost use Rattle.fm_model.specs.Variable.{dim_of_axis};
ghost use Rattle.fm_load.specs.Axis.{IsAxis};

use crate::axis::Axis;
use crate::units::{from_epoch, is_instant, seconds_at};
use fm_base::{Fail, List};
use fm_file::dim_of_axis;
use fm_model::{LoadFault, MAX_TIMES, Site};
use nc_array::FileView;
use nc_layout::size_at;
use nc_model::{Header, NcVar};
use std::alloc::Global;

// The number of times: at least one, and not too many.
#[tactic(auto, using(crate::proofs::LengthLemmas::axes), unfolding(fm_model::specs::LoadTimes::time_count))]
pub(crate) fn time_count(header: &Header, axis: &NcVar) -> Result<u32, Fail<LoadFault>>
    requires { length axis.now.dims ≡ 1 }
    ensures exact { Answers (spec.time_count header.now axis.now) result }
    ensures count { IfOk result (λ count. size_at header.now (dim_of_axis axis.now) ≡ count) }
    ensures shape { IfOk result (λ count. shape_of header.now axis.now ≡ count ∷ []) }
    ensures some { IfOk result (λ count. 0 < count) }
{
    let count = size_at(header, dim_of_axis(axis));
    if count == 0 {
        return Err(Fail::Fault(LoadFault::NoTimes));
    }
    if count > u64::from(MAX_TIMES) {
        return Err(Fail::Fault(LoadFault::TooManyTimes(count)));
    }
    Ok(count as u32)
}

#[tactic(auto, unfolding(fm_model::specs::LoadTimes::time_in_range))]
fn time_in_range(k: u32, seconds: i128) -> Result<i64, Fail<LoadFault>>
    ensures { Answers (spec.time_in_range k seconds) result }
{
    if !is_instant(seconds) {
        return Err(Fail::Fault(LoadFault::TimeRange(u64::from(k), seconds)));
    }
    Ok(seconds as i64)
}

// The time of this index.
#[tactic(auto, unfolding(fm_model::specs::LoadTimes::time_at))]
fn time_at(
    site: &Site,
    file: &FileView<'_>,
    axis: &Axis<'_>,
    k: u32,
) -> Result<i64, Fail<LoadFault>>
    requires axis { IsAxis file.now.layout axis.now.number axis.now.var.now axis.now.count }
    requires there { k < axis.now.count }
    ensures { Answers
        (spec.time_at site.now file.now.bytes file.now.layout.header axis.now.var.now axis.now.units k) result }
{
    let index = [u64::from(k)];
    match seconds_at(file, axis.number, axis.var, axis.units, index.as_slice()) {
        None => Err(Fail::Fault(LoadFault::NotWhole(u64::from(k)))),
        Some(seconds) => time_in_range(k, from_epoch(site, axis.units, seconds)),
    }
}

// Whether an instant is among some, none of which is later than the last of them. Where it comes after that it isn't
// looked for, so that times that rise cost no search.
fn is_repeated(found: &[i64], latest: i64, instant: i64) -> bool
    requires { All (λ earlier. earlier ≤ℤ latest) found.now }
    ensures { result ≡ list_any (λ earlier. int_eq earlier instant) found.now }
{
    instant <= latest && found.iter().any(|earlier| *earlier == instant)
}

// The valid times of a file, in its order, in seconds from the collection's epoch.
#[tactic(auto, using(crate::proofs::TimeLemmas::timings), unfolding(fm_model::specs::LoadTimes::file_times, fm_model::specs::LoadTimes::times_from))]
pub(crate) fn file_times(
    alloc: Global,
    site: &Site,
    file: &FileView<'_>,
    axis: &Axis<'_>,
) -> Result<List<i64>, Fail<LoadFault>>
    requires { IsAxis file.now.layout axis.now.number axis.now.var.now axis.now.count }
    ensures { Answers (spec.file_times site.now file.now.bytes file.now.layout.header
        axis.now.var.now axis.now.units axis.now.count) result }
{
    let mut found = List::new(alloc);
    let mut latest = i64::MIN;
    for k in 0..axis.count {
        let instant = time_at(site, file, axis, k)?;
        if is_repeated(found.as_slice(), latest, instant) {
            return Err(Fail::Fault(LoadFault::TimeRepeated(u64::from(k))));
        }
        found.push(instant)?;
        latest = latest.max(instant);
    }
    Ok(found)
}
