//! How the times of a file lie, as far as a look-up in them has to know.
ghost use Rattle.std.specs.Prelude.{◌≡◌, ◌≢◌, ◌*◌, ◌+ℤ◌, ◌<◌, IfSome, IsNone, pos, true, ℕ};
ghost use Rattle.fm_list.specs.Times as spec;

use crate::times::rise;

/// What is known of times. Fields in this order leave no gap in memory.
#[derive(Clone, Copy)]
pub(crate) enum Spacing {
    /// There are `count` times, each `step` seconds after the one before it.
    Even { count: u16, step: u32, first: i64 },
    Rising,
    Unknown,
}

/// The index of a valid time among times that lie evenly apart: no look at them is needed.
pub(crate) fn even_index(count: u16, step: u32, first: i64, valid: i64) -> Option<u32>
    requires { 0 < step }
    ensures found { IfSome result (λ index. (index < count) × (valid ≡ first +ℤ pos (index * step))) }
    ensures none { IsNone result → (index : ℕ) → index < count → valid ≢ first +ℤ pos (index * step) }
{
    if valid < first {
        return None;
    }
    let far = valid.abs_diff(first);
    let step = u64::from(step);
    let index = far / step;
    if far % step != 0 || index >= u64::from(count) {
        return None;
    }
    Some(index as u32)
}

// Whether each of some times lies `step` seconds after the one before it, and the first at `first`.
fn lie_apart(step: u32, first: i64, times: &[i64]) -> bool
    ensures { result ≡ true → spec.LieApart step first times.now }
{
    let mut next = i128::from(first);
    for time in times {
        let own = i128::from(*time);
        if own != next {
            return false;
        }
        next = own + i128::from(step);
    }
    true
}

// How far the second time lies after the first, where it does. Any step goes for a time alone.
fn first_step(times: &[i64]) -> Option<u32>
    ensures { IfSome result (λ step. 0 < step) }
{
    let [first, second, ..] = times else {
        return Some(1);
    };
    match u32::try_from(i128::from(*second) - i128::from(*first)) {
        Ok(0) | Err(_) => None,
        Ok(step) => Some(step),
    }
}

// How some times lie, if they lie evenly apart.
fn even_spacing(times: &[i64]) -> Option<Spacing>
    ensures { IfSome result (λ spacing. spec.Describes spacing times.now) }
{
    let [first, ..] = times else {
        return None;
    };
    let (Some(step), Ok(count)) = (first_step(times), u16::try_from(times.len())) else {
        return None;
    };
    if !lie_apart(step, *first, times) {
        return None;
    }
    Some(Spacing::Even {
        count,
        step,
        first: *first,
    })
}

/// How some times lie.
pub(crate) fn spacing_of(times: &[i64]) -> Spacing
    ensures { spec.Describes result times.now }
{
    if let Some(even) = even_spacing(times) {
        return even;
    }
    if rise(times) {
        return Spacing::Rising;
    }
    Spacing::Unknown
}
