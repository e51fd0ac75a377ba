//! The date of an origin.
ghost use Rattle.std.specs.Prelude.{◌≡◌, ◌≤◌, length, true};
ghost use Rattle.nc_model.specs.UnitsReading as spec;
ghost use Rattle.tm_units.specs.Scanning.{Reads};

use crate::calendar::day_number;
use crate::form::number_of;
use crate::number::{Digits, digits_in, number};
use crate::scanner::{BadOffset, Scanner};

const YEAR: Digits = Digits {
    fewest: 1,
    most: 4,
    low: 0,
    high: 9999,
};

const MONTH: Digits = Digits {
    fewest: 1,
    most: 2,
    low: 1,
    high: 12,
};

const MONTH_OF_TWO: Digits = Digits {
    fewest: 2,
    most: 2,
    low: 1,
    high: 12,
};

// Reads the day of this month as a day number.
#[tactic(auto, unfolding(nc_model::specs::UnitsReading::day_at))]
fn day(scanner: &mut Scanner<'_>, fewest: usize, year: u32, month: u32) -> Result<i32, BadOffset>
    ensures { Reads (λ day. day) (spec.day_at true fewest year month scanner.old) result scanner.new }
{
    let offset = scanner.at();
    let range = Digits {
        fewest,
        most: 2,
        low: 1,
        high: 31,
    };
    let digits = digits_in(scanner, range)?;
    day_number(year, month, number_of(digits)).ok_or(BadOffset { at: offset })
}

// Reads a month and a day with their dashes.
#[tactic(auto, unfolding(nc_model::specs::UnitsReading::dashed_day_at))]
fn dashed_day(scanner: &mut Scanner<'_>, year: u32) -> Result<i32, BadOffset>
    ensures { Reads (λ day. day) (spec.dashed_day_at true year scanner.old) result scanner.new }
{
    scanner.byte(b'-')?;
    let month = number(scanner, MONTH)?;
    scanner.byte(b'-')?;
    day(scanner, 1, year, month)
}

// Reads a month and a day of two digits each.
#[tactic(auto, unfolding(nc_model::specs::UnitsReading::joined_day_at))]
fn joined_day(scanner: &mut Scanner<'_>, year: u32) -> Result<i32, BadOffset>
    ensures { Reads (λ day. day) (spec.joined_day_at true year scanner.old) result scanner.new }
{
    let month = number(scanner, MONTH_OF_TWO)?;
    day(scanner, 2, year, month)
}

// Reads what follows the digits of a year. After four digits a fifth begins the month.
#[tactic(auto, unfolding(nc_model::specs::UnitsReading::after_year_at))]
fn after_year(scanner: &mut Scanner<'_>, year: &[u8]) -> Result<i32, BadOffset>
    requires { length year.now ≤ 4 }
    ensures { Reads (λ day. day) (spec.after_year_at true year.now scanner.old) result scanner.new }
{
    if scanner.digit_follows(year.len() == 4) {
        joined_day(scanner, number_of(year))
    } else {
        dashed_day(scanner, number_of(year))
    }
}

// Reads a date as its day number.
#[tactic(auto, unfolding(nc_model::specs::UnitsReading::date_at))]
pub(crate) fn date(scanner: &mut Scanner<'_>) -> Result<i32, BadOffset>
    ensures { Reads (λ day. day) (spec.date_at true scanner.old) result scanner.new }
{
    let year = digits_in(scanner, YEAR)?;
    after_year(scanner, year)
}
