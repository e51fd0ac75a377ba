//! Digits of whole numbers.
ghost use Rattle.std.specs.Prelude.{◌≡◌, ◌++◌, ◌<◌, ◌≤◌, ◌^◌, false, OnOk};
ghost use Rattle.std.specs.Fmt.{decimal, digit_glyph};
ghost use Rattle.fm_bits.specs.Digits.{fixed_digits};

use fm_base::{Bytes, NoMemory, put_decimal};
use std::alloc::Global;

// Writes a number in decimal.
pub(crate) fn put_count(alloc: Global, n: u128, out: &mut Bytes) -> Result<(), NoMemory>
    requires { n < 2 ^ 127 }
    ensures { OnOk result (out.new ≡ out.old ++ decimal n) }
{
    put_decimal(alloc, n as i128, out)
}

// Writes the last `count` digits of a number in a base.
#[tactic(auto, unfolding(crate::specs::Digits::fixed_digits))]
pub(crate) fn put_digits(base: u8, count: u32, n: u128, out: &mut Bytes) -> Result<(), NoMemory>
    requires low { 2 ≤ base }
    requires high { base ≤ 16 }
    ensures { OnOk result (out.new ≡ out.old ++ fixed_digits base count n) }
{
    if count == 0 {
        return Ok(());
    }
    let base_wide = u128::from(base);
    put_digits(base, count - 1, n / base_wide, out)?;
    out.push(glyph((n % base_wide) as u8))
}

// The digit of a number below 16, in lower case.
fn glyph(digit: u8) -> u8
    requires { digit < 16 }
    ensures { result ≡ digit_glyph false digit }
{
    if digit < 10 {
        b'0' + digit
    } else {
        b'a' - 10 + digit
    }
}
