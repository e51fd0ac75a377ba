//! The row of a run and a valid time, among some files.
ghost use Rattle.std.specs.Prelude.{◌≡◌, ◌++◌, OnOk, option_and_then};
ghost use Rattle.std.specs.Option.{option_to_list};
ghost use Rattle.fm_model.specs.Rows.{row_at};
ghost use Rattle.fm_list.specs.Selected.{AreSound};

use crate::maps::files::Files;
use fm_base::{List, NoMemory};
use fm_model::Row;

// The index behind that of the last row, where the next time of its file stands.
fn next_index(rows: &List<Row>) -> usize {
    match rows.as_slice() {
        [.., row] => (row.index as usize).saturating_add(1),
        [] => 0,
    }
}

// Adds the row of a run and a valid time, where there is a run and they have a cell.
#[tactic(auto, unfolding(fm_model::specs::Rows::row_at))]
pub(crate) fn push_row(
    rows: &mut List<Row>,
    files: &Files<'_>,
    run: Option<i64>,
    valid: i64,
) -> Result<(), NoMemory>
    requires { AreSound files.now }
    ensures { OnOk result (rows.new
        ≡ rows.old ++ option_to_list (option_and_then (λ run. row_at files.now run valid) run)) }
{
    let Some(run) = run else {
        return Ok(());
    };
    match files.cell_near(run, valid, next_index(rows)) {
        Some((file, index)) => rows.push(Row {
            valid,
            run,
            file: file.share()?,
            index,
        }),
        None => Ok(()),
    }
}
