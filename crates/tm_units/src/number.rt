//! Numbers and words of a text.
ghost use Rattle.std.specs.Prelude.{◌≡◌, ◌≤◌, IfOk, length, true};
ghost use Rattle.nc_model.specs.Stamp.{number_of};
ghost use Rattle.nc_model.specs.UnitsReading as spec;
ghost use Rattle.tm_units.specs.Scanning.{Reads};

use crate::form::number_of;
use crate::scanner::{BadOffset, Scanner};

// The numbers that may stand somewhere: how many digits they have, and their range.
#[derive(Clone, Copy)]
pub(crate) struct Digits {
    pub(crate) fewest: usize,
    pub(crate) most: usize,
    pub(crate) low: u32,
    pub(crate) high: u32,
}

// Reads the digits of a number, which are the longest run up to the most that it may have.
#[tactic(auto, unfolding(nc_model::specs::UnitsReading::digits_at))]
pub(crate) fn digits_in<'a>(
    scanner: &mut Scanner<'a>,
    digits: Digits,
) -> Result<&'a [u8], BadOffset>
    requires { digits.most ≤ 4 }
    ensures read { let parser = spec.digits_at true digits.fewest digits.most digits.low digits.high in
        Reads (λ text. text.now) (parser scanner.old) result scanner.new }
    ensures range { IfOk result (λ text. number_of text.now ≤ digits.high) }
    ensures bound { IfOk result (λ text. length text.now ≤ digits.most) }
{
    let offset = scanner.at();
    let text = scanner.digits(digits.most);
    let number = number_of(text);
    if number < digits.low || number > digits.high {
        return Err(BadOffset { at: offset });
    }
    if text.len() < digits.fewest {
        return Err(BadOffset { at: scanner.at() });
    }
    Ok(text)
}

// Reads a number.
#[tactic(auto, unfolding(nc_model::specs::UnitsReading::number_at))]
pub(crate) fn number(scanner: &mut Scanner<'_>, range: Digits) -> Result<u32, BadOffset>
    requires { range.most ≤ 4 }
    ensures read { let parser = spec.number_at true range.fewest range.most range.low range.high in
        Reads (λ n. n) (parser scanner.old) result scanner.new }
    ensures range { IfOk result (λ n. n ≤ range.high) }
{
    let text = digits_in(scanner, range)?;
    Ok(number_of(text))
}

// Passes over these letters in either case.
pub(crate) fn letters(scanner: &mut Scanner<'_>, letters: &[u8]) -> Result<(), BadOffset>
    ensures { Reads (λ u. u) (spec.letters_at letters.now scanner.old) result scanner.new }
{
    for letter in letters {
        scanner.letter(*letter)?;
    }
    Ok(())
}
