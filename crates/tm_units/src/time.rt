//! The time of an origin, and its zone.
ghost use Rattle.std.specs.Prelude.{◌≡◌, ◌<◌, ◌≤◌, IfOk, false, true};
ghost use Rattle.jiff_core.specs.Calendar.{IsWithin};
ghost use Rattle.nc_model.specs.UnitsReading as spec;
ghost use Rattle.tm_units.specs.Scanning.{Reads};

use crate::form::number_of;
use crate::number::{Digits, digits_in, letters, number};
use crate::scanner::{BadOffset, Scanner};

const HOUR: Digits = Digits {
    fewest: 1,
    most: 2,
    low: 0,
    high: 23,
};

const MINUTE: Digits = Digits {
    fewest: 1,
    most: 2,
    low: 0,
    high: 59,
};

const MINUTE_OF_ZONE: Digits = Digits {
    fewest: 2,
    most: 2,
    low: 0,
    high: 59,
};

// Passes over a point and zeros, where there is a point.
#[tactic(auto, unfolding(nc_model::specs::UnitsReading::fraction_at))]
fn fraction(scanner: &mut Scanner<'_>) -> Result<usize, BadOffset>
    ensures { Reads (λ n. n) (spec.fraction_at scanner.old) result scanner.new }
{
    if !scanner.next_is(b'.') {
        return Ok(0);
    }
    scanner.byte(b'.')?;
    scanner.some(b'0')
}

// Reads the second of a time, 0 where it is left out.
#[tactic(auto, unfolding(nc_model::specs::UnitsReading::second_at))]
fn second(scanner: &mut Scanner<'_>) -> Result<u32, BadOffset>
    ensures read { Reads (λ n. n) (spec.second_at true scanner.old) result scanner.new }
    ensures range { IfOk result (λ n. n ≤ 59) }
{
    if !scanner.next_is(b':') {
        return Ok(0);
    }
    scanner.byte(b':')?;
    let second = number(scanner, MINUTE)?;
    fraction(scanner)?;
    Ok(second)
}

// Reads the minute and the second of a time as seconds, 0 where they are left out.
#[tactic(auto, unfolding(nc_model::specs::UnitsReading::past_hour_at))]
fn past_hour(scanner: &mut Scanner<'_>) -> Result<u32, BadOffset>
    ensures read { Reads (λ n. n) (spec.past_hour_at true scanner.old) result scanner.new }
    ensures range { IfOk result (λ n. n < 3600) }
{
    if !scanner.next_is(b':') {
        return Ok(0);
    }
    scanner.byte(b':')?;
    let minute = number(scanner, MINUTE)?;
    let second = second(scanner)?;
    Ok(minute * 60 + second)
}

// Reads a time of day as the seconds from midnight.
#[tactic(auto, unfolding(nc_model::specs::UnitsReading::time_of_day_at))]
fn time(scanner: &mut Scanner<'_>) -> Result<u32, BadOffset>
    ensures read { Reads (λ n. n) (spec.time_of_day_at true scanner.old) result scanner.new }
    ensures range { IfOk result (λ n. n < 86_400) }
{
    let hour = number(scanner, HOUR)?;
    let past = past_hour(scanner)?;
    Ok(hour * 3600 + past)
}

// Reads the minutes of a zone after a colon.
#[tactic(auto, unfolding(nc_model::specs::UnitsReading::colon_minute_at))]
fn colon_minute(scanner: &mut Scanner<'_>) -> Result<u32, BadOffset>
    ensures read { Reads (λ n. n) (spec.colon_minute_at true scanner.old) result scanner.new }
    ensures range { IfOk result (λ n. n ≤ 59) }
{
    scanner.byte(b':')?;
    number(scanner, MINUTE_OF_ZONE)
}

// Reads the minutes of a zone after the digits of its hours, 0 where they are left out. After two digits a third
// begins the minutes.
#[tactic(auto, unfolding(nc_model::specs::UnitsReading::zone_minute_at))]
fn zone_minute(scanner: &mut Scanner<'_>, hours: &[u8]) -> Result<u32, BadOffset>
    ensures read { Reads (λ n. n) (spec.zone_minute_at true hours.now scanner.old) result scanner.new }
    ensures range { IfOk result (λ n. n ≤ 59) }
{
    if scanner.digit_follows(hours.len() == 2) {
        number(scanner, MINUTE_OF_ZONE)
    } else if scanner.next_is(b':') {
        colon_minute(scanner)
    } else {
        Ok(0)
    }
}

// Reads the hours and minutes of a zone as seconds.
#[tactic(auto, unfolding(nc_model::specs::UnitsReading::distance_at))]
fn distance(scanner: &mut Scanner<'_>) -> Result<u32, BadOffset>
    ensures read { Reads (λ n. n) (spec.distance_at true scanner.old) result scanner.new }
    ensures range { IfOk result (λ n. n < 86_400) }
{
    let hours = digits_in(scanner, HOUR)?;
    let minute = zone_minute(scanner, hours)?;
    Ok(number_of(hours) * 3600 + minute * 60)
}

// Reads a zone to the east that has no sign.
#[tactic(auto, unfolding(nc_model::specs::UnitsReading::shift_at))]
fn shift(scanner: &mut Scanner<'_>) -> Result<i32, BadOffset>
    ensures read { Reads (λ n. n) (spec.shift_at true scanner.old) result scanner.new }
    ensures range { IfOk result (λ z. IsWithin 86_399 z) }
{
    let hour = number(scanner, HOUR)?;
    let minute = colon_minute(scanner)?;
    Ok((hour * 3600 + minute * 60) as i32)
}

// Reads a zone without a sign: a word for UTC.
#[tactic(auto, unfolding(nc_model::specs::UnitsReading::zone_at))]
fn zone_word(scanner: &mut Scanner<'_>) -> Result<i32, BadOffset>
    requires east { spec.next_is 43 scanner.old ≡ false }
    requires west { spec.next_is 45 scanner.old ≡ false }
    ensures read { Reads (λ n. n) (spec.zone_at true scanner.old) result scanner.new }
    ensures range { IfOk result (λ z. IsWithin 86_399 z) }
{
    if scanner.next_is_letter(b'z') {
        scanner.letter(b'z')?;
        return Ok(0);
    }
    if scanner.next_is_letter(b'g') {
        letters(scanner, b"gmt")?;
        return Ok(0);
    }
    letters(scanner, b"utc")?;
    Ok(0)
}

// Reads a zone as the seconds by which its clocks are ahead of UTC.
#[tactic(auto, unfolding(nc_model::specs::UnitsReading::zone_at))]
fn zone(scanner: &mut Scanner<'_>) -> Result<i32, BadOffset>
    ensures read { Reads (λ n. n) (spec.zone_at true scanner.old) result scanner.new }
    ensures range { IfOk result (λ z. IsWithin 86_399 z) }
{
    if scanner.next_is(b'+') {
        scanner.byte(b'+')?;
        return Ok(distance(scanner)? as i32);
    }
    if scanner.next_is(b'-') {
        scanner.byte(b'-')?;
        return Ok(-(distance(scanner)? as i32));
    }
    zone_word(scanner)
}

// Reads a zone, which may lack its sign after a gap.
#[tactic(auto, unfolding(nc_model::specs::UnitsReading::zone_after))]
fn zone_after(scanner: &mut Scanner<'_>, gap: usize) -> Result<i32, BadOffset>
    ensures read { Reads (λ n. n) (spec.zone_after true gap scanner.old) result scanner.new }
    ensures range { IfOk result (λ z. IsWithin 86_399 z) }
{
    if scanner.digit_follows(gap > 0) {
        shift(scanner)
    } else {
        zone(scanner)
    }
}

// Reads a zone up to the end of the text, UTC where it is left out.
#[tactic(auto, unfolding(nc_model::specs::UnitsReading::last_zone_at))]
fn last_zone(scanner: &mut Scanner<'_>) -> Result<i32, BadOffset>
    ensures read { Reads (λ n. n) (spec.last_zone_at true scanner.old) result scanner.new }
    ensures range { IfOk result (λ z. IsWithin 86_399 z) }
{
    let gap = scanner.many(b' ');
    if scanner.has_ended() {
        return Ok(0);
    }
    let zone = zone_after(scanner, gap)?;
    scanner.many(b' ');
    scanner.end()?;
    Ok(zone)
}

// Reads a time and its zone up to the end of the text, as the seconds from the midnight in UTC that begins its date.
#[tactic(auto, unfolding(nc_model::specs::UnitsReading::clock_at))]
fn clock(scanner: &mut Scanner<'_>) -> Result<i32, BadOffset>
    ensures { Reads (λ n. n) (spec.clock_at true scanner.old) result scanner.new }
{
    let time = time(scanner)?;
    let zone = last_zone(scanner)?;
    Ok(time as i32 - zone)
}

// Reads what follows a date up to the end of the text, which is midnight in UTC where there is no time.
#[tactic(auto, unfolding(nc_model::specs::UnitsReading::after_date_at))]
pub(crate) fn after_date(scanner: &mut Scanner<'_>) -> Result<i32, BadOffset>
    ensures { Reads (λ n. n) (spec.after_date_at true scanner.old) result scanner.new }
{
    if scanner.next_is_letter(b't') {
        scanner.letter(b't')?;
        return clock(scanner);
    }
    let gap = scanner.many(b' ');
    if scanner.has_ended() {
        return Ok(0);
    }
    if gap == 0 {
        return Err(BadOffset { at: scanner.at() });
    }
    clock(scanner)
}
