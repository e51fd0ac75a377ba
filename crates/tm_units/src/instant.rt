//! Instants as texts.
ghost use Rattle.std.specs.Prelude.{◌≡◌, ◌+◌, ◌%◌, ◌++◌, ◌&&◌, ◌==◌, length, IsTrue, OnOk, OnErr, IfSome, pos, neg_ℤ, unsigned_abs};
ghost use Rattle.jiff_core.specs.Calendar.{IsBetween};
ghost use Rattle.nc_model.specs.Instant as spec;
ghost use Rattle.nc_model.specs.Stamp.{begins_in_form};
ghost use Rattle.tm_units.specs.Parts.{HasParts};

use crate::calendar::{Time, moment_of};
use crate::form::{begins_in_form, number_at};
use fm_base::{Bytes, NoMemory};
use jiff_core::civil::Date;
use std::alloc::Global;

const SECONDS_PER_DAY: i64 = 86_400;

/// The instant of a text `YYYY-MM-DDThh:mm:ssZ`, as Unix seconds. `None` exactly where the text isn't of that form,
/// with a date that exists, an hour below 24, and minutes and seconds below 60.
#[tactic(auto, using(crate::proofs::InstantLaws::instants))]
pub fn read_instant(text: &[u8]) -> Option<i64>
    ensures value { result ≡ spec.instant_of text.now }

    // No other text is read as this instant.
    ensures written { IfSome result (λ t. text.now ≡ spec.instant_text_of t) }
    ensures year { IfSome result (λ t. spec.HasFourDigitYear t) }
{
    moment_in(text)
}

// Whether a text is of the form of an instant.
#[tactic(auto, unfolding(nc_model::specs::Instant::instant_form))]
fn has_form(text: &[u8]) -> bool
    ensures form { result ≡ (begins_in_form spec.instant_form text.now && length text.now == 20) }
    ensures len { IsTrue result → length text.now ≡ 20 }
{
    begins_in_form(b"0000-00-00T00:00:00Z", text) && text.len() == 20
}

// The instant that a text writes.
#[tactic(auto, unfolding(nc_model::specs::Instant::instant_of))]
fn moment_in(text: &[u8]) -> Option<i64>
    ensures { result ≡ spec.instant_of text.now }
{
    if !has_form(text) {
        return None;
    }
    let time = Time {
        hour: number_at(text, 11, 2),
        minute: number_at(text, 14, 2),
        second: number_at(text, 17, 2),
    };
    moment_of(
        number_at(text, 0, 4),
        number_at(text, 5, 2),
        number_at(text, 8, 2),
        time,
    )
}

// The last decimal digit of a number.
fn digit(number: u32) -> u8
    ensures { result ≡ 48 + number % 10 }
{
    b'0' + (number % 10) as u8
}

// The text of a date and a time.
fn spelled_instant(year: u32, month: u32, day: u32, time: Time) -> [u8; 20]
    ensures { result ≡ spec.spelled_instant year month day time.hour time.minute time.second }
{
    let century = year / 100;
    [
        digit(century / 10),
        digit(century),
        digit(year / 10),
        digit(year),
        b'-',
        digit(month / 10),
        digit(month),
        b'-',
        digit(day / 10),
        digit(day),
        b'T',
        digit(time.hour / 10),
        digit(time.hour),
        b':',
        digit(time.minute / 10),
        digit(time.minute),
        b':',
        digit(time.second / 10),
        digit(time.second),
        b'Z',
    ]
}

// The date of a day of the years 0 to 9999.
fn date_of(day: i64) -> Date
    requires { IsBetween (neg_ℤ (pos 719_528)) (pos 2_932_896) day }
    ensures { HasParts day (unsigned_abs result.year) result.month result.day }
{
    let Ok(date) = Date::from_unix_epoch_day(day) else {
        unreachable!()
    };
    date
}

// The text of an instant, by its day and the seconds from the midnight that begins it.
#[tactic(auto, unfolding(nc_model::specs::Instant::text_of_day))]
fn text_of_day(day: i64, seconds: u32) -> [u8; 20]
    requires { IsBetween (neg_ℤ (pos 719_528)) (pos 2_932_896) day }
    ensures { result ≡ spec.text_of_day day seconds }
{
    let date = date_of(day);
    let time = Time {
        hour: seconds / 3600,
        minute: seconds / 60 % 60,
        second: seconds % 60,
    };
    let year = u32::from(date.year.unsigned_abs());
    spelled_instant(year, u32::from(date.month), u32::from(date.day), time)
}

/// Writes an instant of the years 0 to 9999, given as Unix seconds, as `YYYY-MM-DDThh:mm:ssZ` at the end of `out`. An
/// `Err` changes nothing.
#[tactic(auto, using(crate::proofs::InstantLaws::instants), unfolding(nc_model::specs::Instant::instant_text_of))]
pub fn instant_text(_alloc: Global, t: i64, out: &mut Bytes) -> Result<(), NoMemory>
    requires { spec.HasFourDigitYear t }
    ensures ok { OnOk result (out.new ≡ out.old ++ spec.instant_text_of t) }
    ensures err { OnErr result (out.new ≡ out.old) }

    // What is written is read as this instant.
    ensures read { spec.instant_of (spec.instant_text_of t) ≡ Some t }
{
    let seconds = t.rem_euclid(SECONDS_PER_DAY) as u32;
    let text = text_of_day(t.div_euclid(SECONDS_PER_DAY), seconds);
    out.append(&text)
}
