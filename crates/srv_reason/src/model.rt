//! What is wrong with the format of a file.
ghost use Rattle.std.specs.Prelude.{◌≡◌};
ghost use Rattle.srv_reason.specs.Reason as spec;
ghost use Rattle.srv_reason.specs.Reason.{parts_of};

use crate::reason::{Part, Reason, numbered, plain};
use nc_model::{HeaderFault, LayoutFault, UnitsFault};

// What is wrong with a header, and at which byte.
#[tactic(auto, unfolding(crate::specs::Reason::header_reason))]
pub(crate) fn header_reason<'a>(fault: HeaderFault) -> Reason<'a>
    ensures { parts_of result ≡ spec.header_reason fault }
{
    match fault {
        HeaderFault::BadMagic => plain(b"not netCDF classic"),
        HeaderFault::BadVersion(version) => {
            numbered(b"version ", u64::from(version), b" and not 1 or 2")
        }
        HeaderFault::Truncated(at) => numbered(b"cut in the header, at byte ", at, b""),
        HeaderFault::BadTag(at) => numbered(b"bad tag at byte ", at, b""),
        HeaderFault::BadCount(at) => numbered(b"bad count at byte ", at, b""),
        HeaderFault::BadName(at) => numbered(b"bad name at byte ", at, b""),
        HeaderFault::BadType(at) => numbered(b"bad type at byte ", at, b""),
        HeaderFault::BadDimId(at) => numbered(b"no such dimension at byte ", at, b""),
        HeaderFault::TwoRecordDims(at) => numbered(b"second record dimension at byte ", at, b""),
        HeaderFault::RecordNotFirst(at) => {
            numbered(b"record dimension behind another at byte ", at, b"")
        }
        HeaderFault::RepeatedName(at) => numbered(b"repeated name at byte ", at, b""),
        HeaderFault::Streaming => plain(b"number of records not known yet"),
    }
}

// What is wrong with where data lies.
#[tactic(auto, unfolding(crate::specs::Reason::layout_reason))]
pub(crate) fn layout_reason<'a>(fault: LayoutFault) -> Reason<'a>
    ensures { parts_of result ≡ spec.layout_reason fault }
{
    match fault {
        LayoutFault::TooLarge(var) => numbered(b"variable ", var, b" is over 2^40 bytes"),
        LayoutFault::DataOutside { var, end, .. } => Reason {
            before: b"variable ",
            first: Part::Number(u128::from(var)),
            between: b" ends at byte ",
            second: Part::Number(end),
            after: b", past the end",
        },
    }
}

// What is wrong with units of time.
#[tactic(auto, unfolding(crate::specs::Reason::units_reason))]
pub(crate) fn units_reason<'a>(fault: UnitsFault) -> Reason<'a>
    ensures { parts_of result ≡ spec.units_reason fault }
{
    match fault {
        UnitsFault::BadUnits(at) => numbered(b"bad units at character ", at, b""),
        UnitsFault::Calendar => plain(b"calendar not Gregorian"),
        UnitsFault::MixedCalendar => {
            plain(b"units of the mixed calendar begin before 1582-10-15")
        }
    }
}
