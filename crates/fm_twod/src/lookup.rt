//! Which row stands at a run and an offset.
ghost use Rattle.std.specs.Prelude.{◌≡◌, ◌<◌, ◌≤◌, All, IfSome, MatchOption, None, Some, length, option_and_then, position, slice_get, slice_index};
ghost use Rattle.std.specs.Ordering.{int_eq};
ghost use Rattle.fm_model.specs.declared.limit.TheConstants.{MAX_ROWS};
ghost use Rattle.fm_twod.specs.declared.cells.RunCells.{RunCells as Cells};
ghost use Rattle.fm_twod.specs.Laid as spec;

use crate::cells::RunCells;

// The index of an offset among those of a run.
#[tactic(auto, using(crate::proofs::LookupLemmas::indices))]
fn index_of(offsets: &[i64], offset: i64) -> Option<usize>
    ensures value { result ≡ position (λ other. int_eq other offset) offsets.now }
    ensures within { IfSome result (λ index. index < length offsets.now) }
{
    offsets.iter().position(|other| *other == offset)
}

// The number of the row of a run that has an offset.
#[tactic(auto, unfolding(crate::specs::Laid::number_in))]
fn number_in(cells: &RunCells, offset: i64) -> Option<u64>
    requires { spec.end_of cells.now ≤ MAX_ROWS }
    ensures { result ≡ spec.number_in cells.now offset }
{
    match index_of(cells.offsets.as_slice(), offset) {
        None => None,
        Some(index) => Some(cells.first + index as u64),
    }
}

// One of an index list, or 0 past the last.
pub(crate) fn item_at(index: &[u64], at: usize) -> u64
    ensures { result ≡ slice_index index.now at }
{
    match index.get(at) {
        None => 0,
        Some(found) => *found,
    }
}

// The cells of the run at an index.
pub(crate) fn run_at(runs: &[RunCells], index: u64) -> Option<&RunCells>
    ensures { MatchOption result (slice_get runs.now index ≡ None)
        (λ cells. slice_get runs.now index ≡ Some cells.now) }
{
    runs.get(index as usize)
}

// The offset at an index.
pub(crate) fn offset_at(offsets: &[i64], index: u64) -> Option<i64>
    ensures { result ≡ slice_get offsets.now index }
{
    match offsets.get(index as usize) {
        None => None,
        Some(offset) => Some(*offset),
    }
}

// The number of the row of a run at the index of an offset.
fn number_of(cells: &RunCells, offsets: &[i64], index: u64) -> Option<u64>
    requires { spec.end_of cells.now ≤ MAX_ROWS }
    ensures { result ≡ option_and_then (spec.number_in cells.now) (slice_get offsets.now index) }
{
    match offset_at(offsets, index) {
        None => None,
        Some(offset) => number_in(cells, offset),
    }
}

// The number of the row at an index list, by the first two indices.
#[tactic(auto, unfolding(crate::specs::Laid::number_by))]
pub(crate) fn number_by(runs: &[RunCells], offsets: &[i64], index: &[u64]) -> Option<u64>
    requires { All (λ (cells : Cells). spec.end_of cells ≤ MAX_ROWS) runs.now }
    ensures { result ≡ spec.number_by runs.now offsets.now index.now }
{
    match run_at(runs, item_at(index, 0)) {
        None => None,
        Some(cells) => number_of(cells, offsets, item_at(index, 1)),
    }
}
