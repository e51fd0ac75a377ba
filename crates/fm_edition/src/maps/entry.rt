//! The row of an instant and its files.
ghost use Rattle.std.specs.Prelude.{◌≡◌, ◌+ℤ◌, ◌++◌, OnOk, is_some};
ghost use Rattle.std.specs.Option.{option_to_list};
ghost use Rattle.fm_model.specs.Rows.{best_row, row_at};
ghost use Rattle.fm_list.specs.Selected.{AreSound};
ghost use Rattle.fm_edition.specs.Indexes as spec;

use crate::maps::files::Files;
use crate::maps::wanted::Wanted;
use crate::row::push_row;
use fm_base::{List, NoMemory};
use fm_model::Row;

// Adds the row of a valid time from the best run of the files that have it, if there is one.
#[tactic(auto, unfolding(fm_model::specs::Rows::best_row))]
pub(crate) fn push_best(
    rows: &mut List<Row>,
    files: &Files<'_>,
    valid: i64,
    least: Option<i64>,
) -> Result<(), NoMemory>
    requires { spec.IsTimed (valid, files.now) }
    ensures { OnOk result (rows.new ≡ rows.old ++ option_to_list (best_row files.now least valid)) }
{
    push_row(rows, files, files.best(valid, least), valid)
}

// Adds the row of a run and the valid time that many seconds after it, if there is one.
fn push_after(
    rows: &mut List<Row>,
    files: &Files<'_>,
    run: i64,
    seconds: i64,
) -> Result<(), NoMemory>
    requires { AreSound files.now }
    ensures { OnOk result (rows.new ≡ rows.old ++ option_to_list (row_at files.now run (run +ℤ seconds))) }
{
    match run.checked_add(seconds) {
        Some(valid) => push_row(rows, files, Some(run), valid),
        None => Ok(()),
    }
}

// Adds the row that is wanted, if there is one.
pub(crate) fn push_wanted(
    rows: &mut List<Row>,
    files: &Files<'_>,
    key: i64,
    wanted: Wanted,
) -> Result<(), NoMemory>
    requires { AreSound files.now }
    ensures { OnOk result (rows.new ≡ rows.old ++ option_to_list (spec.entry_row wanted (key, files.now))) }
{
    match wanted {
        Wanted::After(seconds) => push_after(rows, files, key, seconds),
        Wanted::At(valid) => push_row(rows, files, Some(key), valid),
    }
}

// Whether there is a row of a run and a valid time.
fn has_row(files: &Files<'_>, run: i64, valid: i64) -> bool
    requires { AreSound files.now }
    ensures { result ≡ is_some (row_at files.now run valid) }
{
    match files.cell_of(run, valid) {
        Some(_) => true,
        None => false,
    }
}

// Whether there is a row of a run and the valid time that many seconds after it.
fn has_after(files: &Files<'_>, run: i64, seconds: i64) -> bool
    requires { AreSound files.now }
    ensures { result ≡ is_some (row_at files.now run (run +ℤ seconds)) }
{
    match run.checked_add(seconds) {
        Some(valid) => has_row(files, run, valid),
        None => false,
    }
}

// Whether there is the row that is wanted.
pub(crate) fn has_wanted(files: &Files<'_>, key: i64, wanted: Wanted) -> bool
    requires { AreSound files.now }
    ensures { result ≡ is_some (spec.entry_row wanted (key, files.now)) }
{
    match wanted {
        Wanted::After(seconds) => has_after(files, key, seconds),
        Wanted::At(valid) => has_row(files, key, valid),
    }
}
