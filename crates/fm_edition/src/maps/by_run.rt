//! The rows of each run at an offset or a valid time, in one walk through the runs.

use crate::maps::Edition;
use crate::maps::walk::{count_in, rows_in};
use crate::maps::wanted::Wanted;
use fm_base::NoMemory;
use fm_rows::Rows;
use std::alloc::Global;

impl Edition {
    ghost use Rattle.std.specs.Prelude.{◌≡◌, ◌+ℤ◌, IfOk, length};
    ghost use Rattle.std.specs.List.{filter_map};
    ghost use Rattle.fm_model.specs.Cell.{runs_of};
    ghost use Rattle.fm_model.specs.Rows.{row_at};

    /// One row for each run that has the valid time that many seconds after it.
    pub fn offset_rows(&self, alloc: Global, seconds: i64) -> Result<Rows, NoMemory>
        ensures { IfOk result (λ rows.
            rows ≡ filter_map (λ run. row_at self.now.files run (run +ℤ seconds)) (runs_of self.now.files)) }
    {
        rows_in(alloc, &self.index.by_run, Wanted::After(seconds))
    }

    /// How many runs have the valid time that many seconds after them.
    pub fn offset_count(&self, seconds: i64) -> usize
        ensures { result
            ≡ length (filter_map (λ run. row_at self.now.files run (run +ℤ seconds)) (runs_of self.now.files)) }
    {
        count_in(&self.index.by_run, Wanted::After(seconds))
    }

    /// One row for each run that has the valid time.
    pub fn forecast_rows(&self, alloc: Global, valid: i64) -> Result<Rows, NoMemory>
        ensures { IfOk result (λ rows.
            rows ≡ filter_map (λ run. row_at self.now.files run valid) (runs_of self.now.files)) }
    {
        rows_in(alloc, &self.index.by_run, Wanted::At(valid))
    }

    /// How many runs have the valid time.
    pub fn forecast_count(&self, valid: i64) -> usize
        ensures { result ≡ length (filter_map (λ run. row_at self.now.files run valid) (runs_of self.now.files)) }
    {
        count_in(&self.index.by_run, Wanted::At(valid))
    }
}
