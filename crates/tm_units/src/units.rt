//! The `units` and `calendar` attributes of a time variable.
ghost use Rattle.std.specs.Prelude.{◌≡◌, Err, option_map, true};
ghost use Rattle.nc_model.specs.Calendar.{unix_seconds};
ghost use Rattle.nc_model.specs.Units as spec;
ghost use Rattle.nc_model.specs.UnitsFaults.{GoesWrongFirst, IsWrongUnit};
ghost use Rattle.nc_model.specs.UnitsReading.{units_at};
ghost use Rattle.nc_model.specs.UnitsSpelling.{SpellsUnits};
ghost use Rattle.tm_units.specs.Scanning.{Reads};

use crate::date::date;
use crate::number::letters;
use crate::scanner::{BadOffset, Scanner};
use crate::time::after_date;
use crate::unit::{is_same_word, unit};
use jiff_core::civil::Date;
use nc_model::{Units, UnitsFault};

const SECONDS_PER_DAY: i64 = 86_400;

// What a `units` text says: the seconds of the unit, the day number of the date, and the seconds from the midnight in
// UTC that begins that date to the origin.
#[derive(Clone, Copy)]
struct Written {
    per: u32,
    day: i32,
    seconds: i32,
}

// Reads units of time up to the end of the text.
#[tactic(auto, unfolding(nc_model::specs::UnitsReading::units_at))]
fn read_written(scanner: &mut Scanner<'_>) -> Result<Written, BadOffset>
    ensures { Reads (λ w. record { per = w.per; day = w.day; seconds = w.seconds })
        (units_at true scanner.old) result scanner.new }
{
    scanner.many(b' ');
    let per = unit(scanner)?;
    scanner.some(b' ')?;
    letters(scanner, b"since")?;
    scanner.some(b' ')?;
    let day = date(scanner)?;
    let seconds = after_date(scanner)?;
    Ok(Written { per, day, seconds })
}

// Whether the Gregorian calendar holds at every date.
#[tactic(auto, unfolding(nc_model::specs::Units::is_proleptic))]
fn is_proleptic(calendar: Option<&[u8]>) -> bool
    ensures { result ≡ spec.is_proleptic (option_map (λ text. text.now) calendar.entry) }
{
    match calendar {
        Some(text) => is_same_word(text, b"proleptic_gregorian"),
        None => false,
    }
}

// Whether the Gregorian calendar holds from 1582-10-15 on.
#[tactic(auto, unfolding(nc_model::specs::Units::is_gregorian))]
fn is_gregorian(calendar: Option<&[u8]>) -> bool
    ensures { result ≡ spec.is_gregorian (option_map (λ text. text.now) calendar.entry) }
{
    match calendar {
        Some(text) => {
            is_same_word(text, b"standard")
                || is_same_word(text, b"gregorian")
                || is_same_word(text, b"proleptic_gregorian")
        }
        None => true,
    }
}

// Whether a day lies before the first of the Gregorian calendar.
#[tactic(auto, unfolding(nc_model::specs::Units::is_before_gregorian))]
fn is_before_gregorian(day: i32) -> bool
    ensures { result ≡ spec.is_before_gregorian day }
{
    let first = Date {
        year: 1582,
        month: 10,
        day: 15,
    };
    day < first.to_unix_epoch_day()
}

// The Unix seconds of an origin, by its day and the seconds from the midnight that begins it.
fn origin(day: i32, seconds: i32) -> i64
    ensures { result ≡ unix_seconds day seconds }
{
    i64::from(day) * SECONDS_PER_DAY + i64::from(seconds)
}

// The units of what a text says, in a calendar.
#[tactic(auto, unfolding(nc_model::specs::Units::in_calendar))]
fn in_calendar(written: Written, calendar: Option<&[u8]>) -> Result<Units, UnitsFault>
    ensures { result ≡ spec.in_calendar (option_map (λ text. text.now) calendar.entry)
        (record { per = written.per; day = written.day; seconds = written.seconds }) }
{
    if !is_gregorian(calendar) {
        return Err(UnitsFault::Calendar);
    }
    if !is_proleptic(calendar) && is_before_gregorian(written.day) {
        return Err(UnitsFault::MixedCalendar);
    }
    Ok(Units {
        per: written.per,
        origin: origin(written.day, written.seconds),
    })
}

// The units of a text in a calendar.
#[tactic(auto, unfolding(nc_model::specs::Units::units_of, nc_model::specs::UnitsReading::written_or_fault))]
fn units_of(text: &[u8], calendar: Option<&[u8]>) -> Result<Units, UnitsFault>
    ensures { result ≡ spec.units_of text.now (option_map (λ text. text.now) calendar.entry) }
{
    match read_written(&mut Scanner::new(text)) {
        Ok(written) => in_calendar(written, calendar),
        Err(bad) => Err(UnitsFault::BadUnits(bad.at)),
    }
}

/// The units that the text of a `units` attribute names, with the text of the `calendar` attribute beside it.
#[tactic(auto, using(crate::proofs::UnitsLaws::units_laws))]
pub fn read_units(text: &[u8], calendar: Option<&[u8]>) -> Result<Units, UnitsFault>
    ensures value { result ≡ spec.units_of text.now (option_map (λ text. text.now) calendar.entry) }

    // Units are those that the text spells. A text with a bad offset spells none and goes wrong there first, and a
    // calendar is refused only beside a text that spells units.
    ensures settled { spec.Settles text.now (option_map (λ text. text.now) calendar.entry) result }

    // What is spelled is read, so a text spells one reading at most.
    ensures spelled { (written : _) → SpellsUnits true text.now written
        → result ≡ spec.in_calendar (option_map (λ text. text.now) calendar.entry) written }

    // A text is refused where it goes wrong first: at no other offset, and for no calendar.
    ensures wrong { (offset : _) → GoesWrongFirst offset text.now
        → result ≡ Err (UnitsFault.BadUnits offset) }

    // A word that is no unit, where the unit stands, is refused at its first letter.
    ensures unit { (offset : _) → IsWrongUnit offset text.now
        → result ≡ Err (UnitsFault.BadUnits offset) }
{
    units_of(text, calendar)
}
