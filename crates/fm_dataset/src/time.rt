//! The times of rows, as the axis, the runs and the offsets show them: whole seconds in 32 bits.
ghost use Rattle.std.specs.Prelude.{◌≡◌, ◌^◌, ◌<◌, ◌≤ℤ◌, ◌<ℤ◌, neg_ℤ, pos, slice_get, slice_index, All, IfSome, IsNone};
ghost use Rattle.std.specs.Prelude.{None, Some};
ghost use Rattle.std.specs.Int.{w32, cast_unsigned};
ghost use Rattle.fm_dataset.specs.Kept.{HasInstants};
ghost use Rattle.fm_dataset.specs.Values as spec;

use crate::index::first_of;
use fm_model::{Row, ViewName};
use fm_rows::Rows;

/// The bits of whole seconds, in 32 bits.
pub fn bits_of_seconds(seconds: i64) -> u64
    requires low { neg_ℤ (pos 2_147_483_648) ≤ℤ seconds }
    requires high { seconds <ℤ pos 2_147_483_648 }
    ensures value { result ≡ cast_unsigned w32 seconds }
    ensures width { result < 2 ^ 32 }
{
    u64::from((seconds as i32).cast_unsigned())
}

// The row that the first index picks.
#[tactic(auto, using(crate::proofs::RowLemmas::instants_at))]
fn row_of<'a>(rows: &'a Rows, index: &[u64]) -> Option<&'a Row>
    requires { All HasInstants rows.now }
    ensures found { IfSome result (λ row. slice_get rows.now (slice_index index.now 0) ≡ Some row.now) }
    ensures none { IsNone result → slice_get rows.now (slice_index index.now 0) ≡ None }
    ensures instants { IfSome result (λ row. HasInstants row.now) }
{
    rows.get(first_of(index) as usize)
}

// The time that the axis shows of a row.
fn axis_time(view: &ViewName, row: &Row) -> i64
    ensures { result ≡ spec.axis_time view.now row.now }
{
    match view {
        ViewName::Best => row.valid,
        ViewName::BestFrom(_) => row.valid,
        ViewName::Run(_) => row.valid,
        ViewName::Offset(_) => row.valid,
        ViewName::Forecast(_) => row.run,
    }
}

// The bits of the time that the axis shows of the row that the first index picks.
#[tactic(auto, unfolding(crate::specs::Values::time_bits))]
pub(crate) fn axis_bits(rows: &Rows, view: &ViewName, index: &[u64]) -> u64
    requires { All HasInstants rows.now }
    ensures value { result ≡ spec.time_bits rows.now (spec.axis_time view.now) index.now }
    ensures width { result < 2 ^ 32 }
{
    match row_of(rows, index) {
        None => 0,
        Some(row) => bits_of_seconds(axis_time(view, row)),
    }
}

// The bits of its run.
#[tactic(auto, unfolding(crate::specs::Values::time_bits))]
pub(crate) fn run_bits(rows: &Rows, index: &[u64]) -> u64
    requires { All HasInstants rows.now }
    ensures value { result ≡ spec.time_bits rows.now spec.run_time index.now }
    ensures width { result < 2 ^ 32 }
{
    match row_of(rows, index) {
        None => 0,
        Some(row) => bits_of_seconds(row.run),
    }
}

fn offset_time(row: &Row) -> i64
    requires { HasInstants row.now }
    ensures value { result ≡ spec.offset_time row.now }
    ensures low { neg_ℤ (pos 2_147_483_648) ≤ℤ result }
    ensures high { result <ℤ pos 2_147_483_648 }
{
    row.valid - row.run
}

// The bits of its offset.
#[tactic(auto, unfolding(crate::specs::Values::time_bits))]
pub(crate) fn offset_bits(rows: &Rows, index: &[u64]) -> u64
    requires { All HasInstants rows.now }
    ensures value { result ≡ spec.time_bits rows.now spec.offset_time index.now }
    ensures width { result < 2 ^ 32 }
{
    match row_of(rows, index) {
        None => 0,
        Some(row) => bits_of_seconds(offset_time(row)),
    }
}
