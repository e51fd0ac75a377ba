//! What is wrong with a file.
ghost use Rattle.std.specs.Prelude.{◌≡◌};
ghost use Rattle.fm_model.specs.declared.loaded.LoadFault.TheVariants as faults;
ghost use Rattle.srv_reason.specs.Reason as spec;
ghost use Rattle.srv_reason.specs.Reason.{parts_of};

use crate::model::{header_reason, layout_reason, units_reason};
use crate::reason::{Part, Reason, about, numbered, plain};
use fm_model::LoadFault;

// A time that lies outside the range of instants.
#[tactic(auto, unfolding(crate::specs::Reason::reason_of))]
fn time_range<'a>(k: u64, seconds: i128) -> Reason<'a>
    ensures { parts_of result ≡ spec.reason_of (faults.TimeRange k seconds) }
{
    Reason {
        before: b"time ",
        first: Part::Number(u128::from(k)),
        between: b" out of range, at ",
        second: Part::Signed(seconds),
        after: b" seconds from the epoch",
    }
}

// A variable that has another attribute of this name than the prototype's.
#[tactic(auto, unfolding(crate::specs::Reason::reason_of))]
fn attribute_differs<'a>(name: &'a [u8], attribute: &'a [u8]) -> Reason<'a>
    ensures { parts_of result ≡ spec.reason_of (faults.AttributeDiffers name.now attribute.now) }
{
    Reason {
        before: b"attribute ",
        first: Part::Name(attribute),
        between: b" of ",
        second: Part::Name(name),
        after: b" differs",
    }
}

/// Why a file is refused: what differs, with its names and numbers.
#[tactic(auto, unfolding(crate::specs::Reason::reason_of))]
pub fn reason_of(fault: &LoadFault) -> Reason<'_>
    ensures { parts_of result ≡ spec.reason_of fault.now }
{
    match fault {
        LoadFault::Header(fault) => header_reason(*fault),
        LoadFault::Layout(fault) => layout_reason(*fault),
        LoadFault::Units(fault) => units_reason(*fault),
        LoadFault::NoRunTime => plain(b"no run time"),
        LoadFault::NotWhole(k) => numbered(b"time ", *k, b" not in whole seconds"),
        LoadFault::TimeRange(k, seconds) => time_range(*k, *seconds),
        LoadFault::TimeRepeated(k) => numbered(b"time ", *k, b" repeated"),
        LoadFault::MissingVariable(name) => {
            about(b"variable ", Part::Name(name.as_slice()), b" missing")
        }
        LoadFault::VariableDiffers(name) => about(
            b"variable ",
            Part::Name(name.as_slice()),
            b" differs in kind, lengths or dimensions",
        ),
        LoadFault::GridDiffers { name, byte, .. } => Reason {
            before: b"grid of ",
            first: Part::Name(name.as_slice()),
            between: b" differs at byte ",
            second: Part::Number(u128::from(*byte)),
            after: b"",
        },
        LoadFault::NoTimes => plain(b"no times"),
        LoadFault::TooManyTimes(count) => numbered(b"", *count, b" times"),
        LoadFault::RunNotWhole => plain(b"run time not in whole seconds"),
        LoadFault::RunRange(seconds) => about(
            b"run time out of range, at ",
            Part::Signed(*seconds),
            b" seconds from the epoch",
        ),
        LoadFault::AttributeDiffers { name, attribute } => {
            attribute_differs(name.as_slice(), attribute.as_slice())
        }
    }
}
