//! Numbers in words.
ghost use Rattle.std.specs.Prelude.{◌≡◌, ◌↔◌, IsTrue};
ghost use Rattle.std.specs.Fmt.{decimal};
ghost use Rattle.srv_words.specs.Values as spec;

use itoa::Buffer;
use std::str;

// Whether a text is the decimal of a number.
fn is_decimal(number: u32, text: &[u8]) -> bool
    ensures { IsTrue result ↔ (text.now ≡ decimal number) }
{
    let mut buffer = Buffer::new();
    buffer.format(number).as_bytes() == text
}

// The number of which a text is the decimal.
#[tactic(auto, using(crate::proofs::NumberLemmas::numbers))]
fn decimal_in(text: &[u8]) -> Option<u32>
    ensures { result ≡ spec.decimal_of text.now }
{
    match str::from_utf8(text) {
        Ok(digits) => match digits.parse::<u32>() {
            Ok(number) if is_decimal(number, text) => Some(number),
            Ok(_) => None,
            Err(_) => None,
        },
        Err(_) => None,
    }
}

// The number in a range of which a text is the decimal, without sign or leading zeros.
#[tactic(auto, unfolding(crate::specs::Values::number_in, crate::specs::Values::in_range))]
pub(crate) fn number_in(least: u32, most: u32, text: &[u8]) -> Option<u32>
    ensures { result ≡ spec.number_in least most text.now }
{
    let number = decimal_in(text)?;
    if number < least || most < number {
        return None;
    }
    Some(number)
}
