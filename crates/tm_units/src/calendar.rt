//! Days and seconds of the calendar.
ghost use Rattle.std.specs.Prelude.{◌≡◌};
ghost use Rattle.nc_model.specs.Calendar as spec;

use jiff_core::civil::Date;

const SECONDS_PER_DAY: i64 = 86_400;

// The days from 1970-01-01 to this day of the years 0 to 9999, where the calendar has it.
#[tactic(auto, unfolding(nc_model::specs::Calendar::day_number))]
pub(crate) fn day_number(year: u32, month: u32, day: u32) -> Option<i32>
    ensures { result ≡ spec.day_number year month day }
{
    if year > 9999 || month > 12 || day > 31 {
        return None;
    }
    match Date::new(year as i16, month as i8, day as i8) {
        Ok(date) => Some(date.to_unix_epoch_day()),
        Err(_) => None,
    }
}

// A time of day.
#[derive(Clone, Copy)]
pub(crate) struct Time {
    pub(crate) hour: u32,
    pub(crate) minute: u32,
    pub(crate) second: u32,
}

// The Unix seconds of this date and time in UTC, where both exist.
#[tactic(auto, unfolding(nc_model::specs::Calendar::day_number, nc_model::specs::Calendar::moment_of))]
pub(crate) fn moment_of(year: u32, month: u32, day: u32, time: Time) -> Option<i64>
    ensures { result ≡ spec.moment_of year month day time.hour time.minute time.second }
{
    let day = day_number(year, month, day)?;
    if time.hour >= 24 || time.minute >= 60 || time.second >= 60 {
        return None;
    }
    let seconds = time.hour * 3600 + time.minute * 60 + time.second;
    Some(i64::from(day) * SECONDS_PER_DAY + i64::from(seconds))
}
