//! The words for units of time.
ghost use Rattle.std.specs.Prelude.{◌≡◌, true};
ghost use Rattle.nc_model.specs.UnitsReading as spec;
ghost use Rattle.tm_units.specs.Scanning.{Reads};

use crate::scanner::{BadOffset, Scanner};

// Whether two words are the same but for the case of their letters.
#[tactic(auto, unfolding(nc_model::specs::UnitsReading::is_same_word))]
pub(crate) fn is_same_word(word: &[u8], other: &[u8]) -> bool
    ensures { result ≡ spec.is_same_word word.now other.now }
{
    word.eq_ignore_ascii_case(other)
}

// Whether a word names a second.
#[tactic(auto, unfolding(nc_model::specs::UnitsReading::is_second))]
fn is_second(word: &[u8]) -> bool
    ensures { result ≡ spec.is_second word.now }
{
    is_same_word(word, b"second")
        || is_same_word(word, b"seconds")
        || is_same_word(word, b"sec")
        || is_same_word(word, b"secs")
        || is_same_word(word, b"s")
}

// Whether a word names a minute.
#[tactic(auto, unfolding(nc_model::specs::UnitsReading::is_minute))]
fn is_minute(word: &[u8]) -> bool
    ensures { result ≡ spec.is_minute word.now }
{
    is_same_word(word, b"minute")
        || is_same_word(word, b"minutes")
        || is_same_word(word, b"min")
        || is_same_word(word, b"mins")
}

// Whether a word names an hour.
#[tactic(auto, unfolding(nc_model::specs::UnitsReading::is_hour))]
fn is_hour(word: &[u8]) -> bool
    ensures { result ≡ spec.is_hour word.now }
{
    is_same_word(word, b"hour")
        || is_same_word(word, b"hours")
        || is_same_word(word, b"hr")
        || is_same_word(word, b"hrs")
        || is_same_word(word, b"h")
}

// Whether a word names a day.
#[tactic(auto, unfolding(nc_model::specs::UnitsReading::is_day))]
fn is_day(word: &[u8]) -> bool
    ensures { result ≡ spec.is_day word.now }
{
    is_same_word(word, b"day") || is_same_word(word, b"days") || is_same_word(word, b"d")
}

// The seconds of the unit that a word names.
#[tactic(auto, unfolding(nc_model::specs::UnitsReading::seconds_per))]
fn seconds_per(word: &[u8]) -> Option<u32>
    ensures { result ≡ spec.seconds_per word.now }
{
    if is_second(word) {
        Some(1)
    } else if is_minute(word) {
        Some(60)
    } else if is_hour(word) {
        Some(3600)
    } else if is_day(word) {
        Some(86_400)
    } else {
        None
    }
}

// Reads the word of a unit, which is the longest run of letters.
#[tactic(auto, unfolding(nc_model::specs::UnitsReading::unit_at))]
pub(crate) fn unit(scanner: &mut Scanner<'_>) -> Result<u32, BadOffset>
    ensures { Reads (λ n. n) (spec.unit_at true scanner.old) result scanner.new }
{
    let offset = scanner.at();
    let word = scanner.letters();
    seconds_per(word).ok_or(BadOffset { at: offset })
}
