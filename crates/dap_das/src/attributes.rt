//! The attributes of what the views add to a prototype's variables.
ghost use Rattle.std.specs.Prelude.{◌≡◌, ◌++◌, ◌∷◌, [], IfOk, OnOk};
ghost use Rattle.nc_model.specs.Instant.{HasFourDigitYear};
ghost use Rattle.dap_das.specs.Attributes as spec;

use fm_base::{Bytes, List, NoMemory};
use fm_model::{Proto, ViewName};
use nc_model::{Attr, Kind};
use std::alloc::Global;
use tm_units::instant_text;

// Adds an attribute of characters.
#[tactic(auto, unfolding(crate::specs::Attributes::text_attribute))]
fn push_text(
    alloc: Global,
    name: &[u8],
    text: &[u8],
    attrs: &mut List<Attr>,
) -> Result<(), NoMemory>
    ensures { OnOk result (attrs.new ≡ attrs.old ++ spec.text_attribute name.now text.now ∷ []) }
{
    let name = Bytes::copy_of(alloc, name)?;
    let values = Bytes::copy_of(alloc, text)?;
    attrs.push(Attr {
        name,
        kind: Kind::Char,
        values,
    })
}

// Adds what is counted.
#[tactic(auto, unfolding(crate::specs::Attributes::units_attribute))]
fn push_units(alloc: Global, units: &[u8], attrs: &mut List<Attr>) -> Result<(), NoMemory>
    ensures { OnOk result (attrs.new ≡ attrs.old ++ spec.units_attribute units.now ∷ []) }
{
    push_text(alloc, b"units", units, attrs)
}

// Adds what is meant.
#[tactic(auto, unfolding(crate::specs::Attributes::standard_name_attribute))]
fn push_standard_name(
    alloc: Global,
    standard_name: &[u8],
    attrs: &mut List<Attr>,
) -> Result<(), NoMemory>
    ensures { OnOk result (attrs.new
        ≡ attrs.old ++ spec.standard_name_attribute standard_name.now ∷ []) }
{
    push_text(alloc, b"standard_name", standard_name, attrs)
}

// Adds the calendar of instants.
#[tactic(auto, unfolding(crate::specs::Attributes::calendar_attribute))]
fn push_calendar(alloc: Global, attrs: &mut List<Attr>) -> Result<(), NoMemory>
    ensures { OnOk result (attrs.new ≡ attrs.old ++ spec.calendar_attribute ∷ []) }
{
    push_text(alloc, b"calendar", b"proleptic_gregorian", attrs)
}

// The units of instants that are counted from this epoch.
#[tactic(auto, unfolding(crate::specs::Attributes::units_since))]
fn units_since(alloc: Global, epoch: i64) -> Result<Bytes, NoMemory>
    requires { HasFourDigitYear epoch }
    ensures { IfOk result (λ units. units ≡ spec.units_since epoch) }
{
    let mut units = Bytes::copy_of(alloc, b"seconds since ")?;
    instant_text(alloc, epoch, &mut units)?;
    Ok(units)
}

// The attributes of instants that are counted from this epoch.
#[tactic(auto, unfolding(crate::specs::Attributes::instant_attributes))]
fn instant_attributes(
    alloc: Global,
    epoch: i64,
    standard_name: &[u8],
) -> Result<List<Attr>, NoMemory>
    requires { HasFourDigitYear epoch }
    ensures { IfOk result (λ attrs. attrs ≡ spec.instant_attributes epoch standard_name.now) }
{
    let units = units_since(alloc, epoch)?;
    let mut attrs = List::new(alloc);
    push_units(alloc, units.as_slice(), &mut attrs)?;
    push_standard_name(alloc, standard_name, &mut attrs)?;
    push_calendar(alloc, &mut attrs)?;
    Ok(attrs)
}

// The standard name of what the axis of a view holds.
#[tactic(auto, unfolding(crate::specs::Attributes::axis_standard_name, crate::specs::Attributes::reference_time))]
fn axis_standard_name(view: &ViewName) -> &'static [u8]
    ensures { result.now ≡ spec.axis_standard_name view.now }
{
    match view {
        ViewName::Best | ViewName::BestFrom(_) | ViewName::Run(_) | ViewName::Offset(_) => b"time",
        ViewName::Forecast(_) => b"forecast_reference_time",
    }
}

/// The attributes of a view's axis: `units` with the instant of the collection's epoch, `standard_name` and `calendar`.
/// The axis of a constant forecast holds the times of runs, and so its standard name is `forecast_reference_time`; that
/// of any other view is `time` (THREDDS Data Server, Forecast Model Run Collections). The caller has an epoch in the
/// years 0 to 9999.
#[tactic(auto, unfolding(crate::specs::Attributes::axis_attributes))]
pub fn axis_attributes(
    alloc: Global,
    proto: &Proto,
    view: &ViewName,
) -> Result<List<Attr>, NoMemory>
    requires { HasFourDigitYear proto.now.site.epoch }
    ensures { IfOk result (λ attrs. attrs ≡ spec.axis_attributes proto.now view.now) }
{
    instant_attributes(alloc, proto.site.epoch, axis_standard_name(view))
}

/// The attributes of the run of each row: those of instants, with the standard name `forecast_reference_time`. The
/// caller has an epoch in the years 0 to 9999.
#[tactic(auto, unfolding(crate::specs::Attributes::run_attributes, crate::specs::Attributes::reference_time))]
pub fn run_attributes(alloc: Global, proto: &Proto) -> Result<List<Attr>, NoMemory>
    requires { HasFourDigitYear proto.now.site.epoch }
    ensures { IfOk result (λ attrs. attrs ≡ spec.run_attributes proto.now) }
{
    instant_attributes(alloc, proto.site.epoch, b"forecast_reference_time")
}

/// The attributes of the offset of each row, which is its valid time minus its run's: `units` and `standard_name`.
#[tactic(auto, unfolding(crate::specs::Attributes::offset_attributes))]
pub fn offset_attributes(alloc: Global) -> Result<List<Attr>, NoMemory>
    ensures { IfOk result (λ attrs. attrs ≡ spec.offset_attributes) }
{
    let mut attrs = List::new(alloc);
    push_units(alloc, b"seconds", &mut attrs)?;
    push_standard_name(alloc, b"forecast_period", &mut attrs)?;
    Ok(attrs)
}
