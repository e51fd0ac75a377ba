//! Stretches of valid times, of which each lies at least as far after its run as the one before it.
ghost use Rattle.std.specs.Prelude.{◌≤ℤ◌, ◌<◌, IfOk, IsTrue, length};
ghost use Rattle.fm_edition.specs.Stretches.{lag, AreEnds, IsEnd};

use crate::maps::page_rows::Oldest;
use fm_base::{List, NoMemory};
use std::alloc::Global;

// Whether one valid time lies at least as far after its run as another.
fn lies_as_far(one: &Oldest, other: &Oldest) -> bool
    ensures { IsTrue result → lag other.now ≤ℤ lag one.now }
{
    i128::from(other.valid) - i128::from(other.run) <= i128::from(one.valid) - i128::from(one.run)
}

// The end of the stretch from an index on.
fn end_from(times: &[Oldest], from: usize) -> usize
    requires { from < length times.now }
    ensures { IsEnd times.now from result }
{
    let mut end = from + 1;
    while end < times.len() {
        if !lies_as_far(&times[end], &times[end - 1]) {
            return end;
        }
        end += 1;
    }
    end
}

// The end of the stretch of each valid time.
pub(crate) fn ends_of(alloc: Global, times: &[Oldest]) -> Result<List<usize>, NoMemory>
    ensures { IfOk result (λ ends. AreEnds times.now ends) }
{
    let items = Vec::with_capacity(alloc, times.len())?;
    let mut ends = List { items };
    let mut end = 0;
    for at in 0..times.len() {
        if at == end {
            end = end_from(times, at);
        }
        ends.push(end)?;
    }
    Ok(ends)
}
