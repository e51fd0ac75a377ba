//! Numbers times powers of two, of five, and the like, within 128 bits.
ghost use Rattle.std.specs.Prelude.{◌≡◌, ◌*◌, ◌/◌, ◌%◌, ◌^◌, ◌<◌, ◌≤◌};
ghost use Rattle.std.specs.Option.{SomeIff};

// `n * 2^power`, where it is below 2^127.
pub(crate) fn times_two(n: u128, power: u32) -> Option<u128>
    ensures { SomeIff result (n * 2 ^ power < 2 ^ 127) (n * 2 ^ power) }
{
    if n == 0 {
        return Some(0);
    }
    if power >= 127 || n >= 1 << (127 - power) {
        return None;
    }
    Some(n << power)
}

// `n / 2^power`, where it is whole.
pub(crate) fn over_two(n: u128, power: u32) -> Option<u128>
    ensures { SomeIff result (n % 2 ^ power ≡ 0) (n / 2 ^ power) }
{
    if n == 0 {
        return Some(0);
    }
    if power >= 128 || n % (1 << power) != 0 {
        return None;
    }
    Some(n >> power)
}

// `n * 5^power`, where the power is at most 40 and the product is below 2^127.
pub(crate) fn times_five(n: u64, power: u32) -> Option<u128>
    ensures { SomeIff result ((power ≤ 40) × (n * 5 ^ power < 2 ^ 127)) (n * 5 ^ power) }
{
    if power > 40 {
        return None;
    }
    let product = 5u128.pow(power).checked_mul(u128::from(n))?;
    if product < 1 << 127 {
        Some(product)
    } else {
        None
    }
}
