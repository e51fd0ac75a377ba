//! Values of time of a file.
ghost use Rattle.std.specs.Prelude.{◌≡◌};
ghost use Rattle.fm_base.specs.Answer.{Answers};
ghost use Rattle.nc_model.specs.Layout.{IsIndex, shape_of};
ghost use Rattle.fm_model.specs.LoadTimes as spec;
ghost use Rattle.nc_layout.specs.LaidOut.{IsVar};

use fm_base::Fail;
use fm_bits::{pattern_at, whole_seconds};
use fm_file::text_of;
use fm_model::{LoadFault, MAX_INSTANT, Site};
use nc_array::FileView;
use nc_model::{NcVar, Units};
use tm_units::read_units;

// The units of a variable of times, by its `units` and `calendar`; without `units` it has the empty text there.
#[tactic(auto, unfolding(fm_model::specs::LoadTimes::file_units))]
pub(crate) fn file_units(var: &NcVar) -> Result<Units, Fail<LoadFault>>
    ensures { Answers (spec.file_units var.now) result }
{
    let attrs = var.attrs.as_slice();
    let text = match text_of(attrs, b"units".as_slice()) {
        Some(text) => text,
        None => b"".as_slice(),
    };
    match read_units(text, text_of(attrs, b"calendar".as_slice())) {
        Ok(units) => Ok(units),
        Err(fault) => Err(Fail::Fault(LoadFault::Units(fault))),
    }
}

// The whole seconds of an element, where it is a number and they are whole.
#[tactic(auto, using(nc_layout::proofs::ReadLemmas::headers_read), unfolding(fm_model::specs::LoadTimes::seconds_at))]
pub(crate) fn seconds_at(
    file: &FileView<'_>,
    number: u32,
    var: &NcVar,
    units: Units,
    index: &[u64],
) -> Option<i64>
    requires var { IsVar file.now.layout number var.now }
    requires index { IsIndex (shape_of file.now.layout.header var.now) index.now }
    ensures { result ≡ spec.seconds_at file.now.bytes file.now.layout.header var.now units index.now }
{
    match pattern_at(var.kind, file.element(number, index)) {
        Some(pattern) => whole_seconds(pattern, units.per),
        None => None,
    }
}

// This many seconds after the origin of units, in seconds from the collection's epoch.
pub(crate) fn from_epoch(site: &Site, units: Units, seconds: i64) -> i128
    ensures { result ≡ spec.from_epoch site.now units seconds }
{
    i128::from(seconds) + i128::from(units.origin) - i128::from(site.epoch)
}

// Whether this many seconds from the epoch are an instant of a collection.
#[tactic(auto, unfolding(fm_model::specs::LoadTimes::is_instant))]
pub(crate) fn is_instant(seconds: i128) -> bool
    ensures { result ≡ spec.is_instant seconds }
{
    -i128::from(MAX_INSTANT) <= seconds && seconds <= i128::from(MAX_INSTANT)
}
