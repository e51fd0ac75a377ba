//! Numbers in the hexadecimal form: `0x1.`, a fraction, `p` and an exponent of two.
ghost use Rattle.std.specs.Prelude.{◌≡◌, ◌++◌, ◌<◌, OnOk, pos, ◌+ℤ◌};
ghost use Rattle.fm_bits.specs.Text.{exponent_text, hex_fraction, hex_text, high_index};

use crate::digits::{put_count, put_digits};
use fm_base::{Bytes, NoMemory};
use std::alloc::Global;

// Writes the number `odd * 2^exponent`.
pub(crate) fn put_hexadecimal(
    alloc: Global,
    odd: u64,
    exponent: i32,
    out: &mut Bytes,
) -> Result<(), NoMemory>
    requires { 0 < odd }
    ensures { OnOk result (out.new ≡ out.old ++ hex_text odd exponent) }
{
    out.append(b"0x1")?;
    put_fraction(odd, out)?;
    out.push(b'p')?;
    put_exponent(alloc, high_exponent(odd, exponent), out)
}

// The exponent of the highest bit of the number `odd * 2^exponent`.
#[tactic(auto, unfolding(crate::specs::Text::high_index))]
fn high_exponent(odd: u64, exponent: i32) -> i64
    requires { 0 < odd }
    ensures { result ≡ exponent +ℤ pos (high_index odd) }
{
    i64::from(exponent) + i64::from(63 - odd.leading_zeros())
}

// Writes what stands below the highest bit, in whole digits, and a point before it.
#[tactic(auto, unfolding(crate::specs::Text::hex_fraction, crate::specs::Text::high_index))]
fn put_fraction(odd: u64, out: &mut Bytes) -> Result<(), NoMemory>
    requires { 0 < odd }
    ensures { OnOk result (out.new ≡ out.old ++ hex_fraction odd) }
{
    let width = 63 - odd.leading_zeros();
    if width == 0 {
        return Ok(());
    }
    let count = (width + 3) / 4;
    out.push(b'.')?;
    put_digits(16, count, u128::from(odd) << (4 * count - width), out)
}

// Writes an exponent with its sign.
#[tactic(auto, unfolding(crate::specs::Text::exponent_text))]
fn put_exponent(alloc: Global, exponent: i64, out: &mut Bytes) -> Result<(), NoMemory>
    ensures { OnOk result (out.new ≡ out.old ++ exponent_text exponent) }
{
    out.push(if exponent < 0 { b'-' } else { b'+' })?;
    put_count(alloc, u128::from(exponent.unsigned_abs()), out)
}
