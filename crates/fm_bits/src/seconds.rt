//! Times as whole seconds.
ghost use Rattle.std.specs.Prelude.{◌≡◌, ℤ, ◌^◌, ◌<◌, IfSome, IfNone, FitsSigned};
ghost use Rattle.std.specs.Int.{w64};
ghost use Rattle.nc_model.specs.Pattern.{IsPattern, IsTimes, in_i64, pattern_value, whole_seconds_of, whole_times};

use crate::scale::{over_two, times_two};
use crate::value::value_of;
use nc_model::{Pattern, Value};

/// A time in units of `per` seconds, in seconds. `None` exactly where the product isn't a whole number or doesn't fit
/// 64 bits, and for infinities and NaNs.
pub fn whole_seconds(p: Pattern, per: u32) -> Option<i64>
    requires { IsPattern p }
    ensures value { result ≡ whole_seconds_of p per }

    // The product, as whole numbers, and nothing near it.
    ensures some { IfSome result (IsTimes (pattern_value p) per) }
    ensures none { IfNone result
        ((z : ℤ) → FitsSigned w64 z → IsTimes (pattern_value p) per z → ⊥) }
{
    exact_times(value_of(p), per)
}

// A value times `per`, where that is a whole number and fits 64 bits.
fn exact_times(value: Value, per: u32) -> Option<i64>
    ensures { result ≡ whole_times value per }
{
    let Value::Finite {
        negative,
        odd,
        exponent,
    } = value
    else {
        return None;
    };
    let product = u128::from(odd) * u128::from(per);
    let power = exponent.unsigned_abs();
    let whole = if exponent < 0 {
        over_two(product, power)?
    } else {
        times_two(product, power)?
    };
    signed(negative, whole)
}

// A number with a sign, where it fits.
fn signed(negative: bool, n: u128) -> Option<i64>
    requires { n < 2 ^ 127 }
    ensures { result ≡ in_i64 negative n }
{
    let most = if negative { 1 << 63 } else { (1 << 63) - 1 };
    if n > most {
        return None;
    }
    Some(if negative { -(n as i128) } else { n as i128 } as i64)
}
