//! What the bits of a number stand for.
ghost use Rattle.std.specs.Prelude.{◌≡◌, pos, ◌+ℤ◌, ◌≤ℤ◌, ◌+◌, ◌*◌, ◌<◌, ◌≤◌, ◌^◌};
ghost use Rattle.nc_model.specs.Pattern.{IsPattern, IsReduced, pattern_value};
ghost use Rattle.nc_model.specs.Pattern.{finite, lowest_exponent, value_of_fields, whole_value};

use nc_model::{Kind, Pattern, Value};

// What a pattern stands for: a whole number in two's complement, or a number of IEEE 754's formats binary32 and
// binary64.
pub(crate) fn value_of(p: Pattern) -> Value
    requires { IsPattern p }
    ensures value { result ≡ pattern_value p }
    ensures reduced { IsReduced result }
{
    let bits = p.bits;
    match p.kind {
        Kind::Byte => whole(i64::from((bits as u8).cast_signed())),
        Kind::Char => unreachable!(),
        Kind::Short => whole(i64::from((bits as u16).cast_signed())),
        Kind::Int => whole(i64::from((bits as u32).cast_signed())),
        Kind::Float => from_fields(
            8,
            23,
            bits >> 31 == 1,
            (bits >> 23) % (1 << 8),
            bits % (1 << 23),
        ),
        Kind::Double => from_fields(
            11,
            52,
            bits >> 63 == 1,
            (bits >> 52) % (1 << 11),
            bits % (1 << 52),
        ),
    }
}

// A whole number.
fn whole(n: i64) -> Value
    ensures value { result ≡ whole_value n }
    ensures reduced { IsReduced result }
{
    finite(n < 0, n.unsigned_abs(), 0)
}

// The number whose sign, biased exponent and fraction these are.
#[tactic(auto, unfolding(nc_model::specs::Pattern::value_of_fields))]
fn from_fields(width: u32, fraction_width: u32, negative: bool, biased: u64, fraction: u64) -> Value
    requires some_exponent { 1 ≤ width }
    requires exponent { width ≤ 11 }
    requires significand { fraction_width ≤ 52 }
    requires biased_in { biased < 2 ^ width }
    requires fraction_in { fraction < 2 ^ fraction_width }
    ensures value { result ≡ value_of_fields width fraction_width negative biased fraction }
    ensures reduced { IsReduced result }
{
    if biased == (1 << width) - 1 {
        return if fraction == 0 {
            Value::Infinite { negative }
        } else {
            Value::NotANumber
        };
    }
    if biased == 0 {
        finite(
            negative,
            fraction,
            lowest_exponent(width, fraction_width, 1),
        )
    } else {
        let significand = (1 << fraction_width) + fraction;
        finite(
            negative,
            significand,
            lowest_exponent(width, fraction_width, biased),
        )
    }
}

// The exponent of the lowest bit of a significand, whose biased exponent this is.
fn lowest_exponent(width: u32, fraction_width: u32, biased: u64) -> i32
    requires some_exponent { 1 ≤ width }
    requires exponent { width ≤ 11 }
    requires significand { fraction_width ≤ 52 }
    requires biased_in { biased < 2048 }
    ensures value { result ≡ lowest_exponent width fraction_width biased }
    ensures most { result ≤ℤ pos 2047 }
{
    let bias = (1u64 << (width - 1)) - 1;
    biased as i32 - (bias + u64::from(fraction_width)) as i32
}

// The number `n * 2^exponent`, written with an odd number.
#[tactic(auto, unfolding(nc_model::specs::Pattern::finite))]
fn finite(negative: bool, n: u64, exponent: i32) -> Value
    requires { exponent ≤ℤ pos 2047 }
    ensures value { result ≡ finite negative n exponent }
    ensures reduced { IsReduced result }
{
    if n == 0 {
        return Value::Finite {
            negative,
            odd: 0,
            exponent: 0,
        };
    }
    let twos = n.trailing_zeros();
    Value::Finite {
        negative,
        odd: n >> twos,
        exponent: exponent + twos as i32,
    }
}
