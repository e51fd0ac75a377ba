//! One exact text for each pattern.
ghost use Rattle.std.specs.Prelude.{◌≡◌, ◌++◌, false, OnOk, OnErr};
ghost use Rattle.std.specs.Fmt.{sign_text};
ghost use Rattle.nc_model.specs.Pattern.{IsPattern, IsReduced};
ghost use Rattle.fm_bits.specs.Text.{magnitude_text, pattern_text, value_text};

use crate::digits::{put_count, put_digits};
use crate::hexadecimal::put_hexadecimal;
use crate::scale::{times_five, times_two};
use crate::value::value_of;
use fm_base::{Bytes, NoMemory, put_decimal};
use nc_model::{Kind, Pattern, Value};
use std::alloc::Global;

/// Writes the text of a pattern at the end of `out`. An `Err` changes nothing.
pub fn text_of(alloc: Global, p: Pattern, out: &mut Bytes) -> Result<(), NoMemory>
    requires { IsPattern p }
    ensures ok { OnOk result (out.new ≡ out.old ++ pattern_text p) }
    ensures err { OnErr result (out.new ≡ out.old) }
{
    let mut text = Bytes::new(alloc);
    put_pattern(alloc, p, &mut text)?;
    out.append(text.as_slice())
}

// Writes the text of a pattern.
fn put_pattern(alloc: Global, p: Pattern, out: &mut Bytes) -> Result<(), NoMemory>
    requires { IsPattern p }
    ensures { OnOk result (out.new ≡ out.old ++ pattern_text p) }
{
    let bits = p.bits;
    match p.kind {
        Kind::Byte => put_decimal(alloc, i128::from(bits), out),
        Kind::Char => unreachable!(),
        Kind::Short => put_decimal(alloc, i128::from((bits as u16).cast_signed()), out),
        Kind::Int => put_decimal(alloc, i128::from((bits as u32).cast_signed()), out),
        Kind::Float | Kind::Double => put_value(alloc, value_of(p), out),
    }
}

// Writes the text of a value of a floating-point kind.
fn put_value(alloc: Global, value: Value, out: &mut Bytes) -> Result<(), NoMemory>
    requires { IsReduced value }
    ensures { OnOk result (out.new ≡ out.old ++ value_text value) }
{
    match value {
        Value::Finite {
            negative,
            odd,
            exponent,
        } => {
            put_sign(negative, out)?;
            put_magnitude(alloc, odd, exponent, out)
        }
        Value::Infinite { negative } => {
            put_sign(negative, out)?;
            out.append(b"Infinity")
        }
        Value::NotANumber => out.append(b"NaN"),
    }
}

// Writes the sign of a negative number.
fn put_sign(negative: bool, out: &mut Bytes) -> Result<(), NoMemory>
    ensures { OnOk result (out.new ≡ out.old ++ sign_text negative) }
{
    if negative { out.push(b'-') } else { Ok(()) }
}

// Writes the number `odd * 2^exponent`: all its digits where it is whole and below 2^127, all its decimals where they
// are at most 40 and the digits stand for less than 2^127, else in hexadecimal.
#[tactic(auto, unfolding(crate::specs::Text::magnitude_text, crate::specs::Text::whole_text, crate::specs::Text::decimals_text))]
fn put_magnitude(alloc: Global, odd: u64, exponent: i32, out: &mut Bytes) -> Result<(), NoMemory>
    requires { IsReduced (Value.Finite false odd exponent) }
    ensures { OnOk result (out.new ≡ out.old ++ magnitude_text odd exponent) }
{
    let power = exponent.unsigned_abs();
    if exponent < 0 {
        match times_five(odd, power) {
            Some(digits) => {
                put_count(alloc, u128::from(odd >> power), out)?;
                out.push(b'.')?;
                put_digits(10, power, digits, out)
            }
            None => put_hexadecimal(alloc, odd, exponent, out),
        }
    } else {
        match times_two(u128::from(odd), power) {
            Some(n) => {
                put_count(alloc, n, out)?;
                out.append(b".0")
            }
            None => put_hexadecimal(alloc, odd, exponent, out),
        }
    }
}
