//! The rows of a run: one look-up for each of its times.
ghost use Rattle.std.specs.Prelude.{◌≡◌, ◌++◌, IfOk, OnErr, OnOk};
ghost use Rattle.std.specs.List.{filter_map};
ghost use Rattle.std.specs.Option.{option_to_list};
ghost use Rattle.fm_model.specs.Cell.{times_of_run};
ghost use Rattle.fm_model.specs.Rows.{row_at};

use fm_base::{List, NoMemory};
use fm_edition::Edition;
use fm_model::Row;
use std::alloc::Global;

// The row of a run and a valid time, where they have a cell.
fn row_of(edition: &Edition, run: i64, valid: i64) -> Result<Option<Row>, NoMemory>
    ensures { IfOk result (λ row. row ≡ row_at edition.now.files run valid) }
{
    match edition.cell(run, valid) {
        Some((file, index)) => Ok(Some(Row {
            valid,
            run,
            file: file.share()?,
            index,
        })),
        None => Ok(None),
    }
}

// Adds a row at the end, if there is one. An `Err` changes nothing.
fn push_some(rows: &mut List<Row>, row: Option<Row>) -> Result<(), NoMemory>
    ensures ok { OnOk result (rows.new ≡ rows.old ++ option_to_list row) }
    ensures err { OnErr result (rows.new ≡ rows.old) }
{
    match row {
        Some(row) => rows.push(row),
        None => Ok(()),
    }
}

/// One row for each valid time of a run.
#[tactic(auto, using(fm_edition::proofs::WalkLemmas::one_more))]
pub fn rows_of_run(alloc: Global, edition: &Edition, run: i64) -> Result<List<Row>, NoMemory>
    ensures { IfOk result (λ rows.
        rows ≡ filter_map (row_at edition.now.files run) (times_of_run edition.now.files run)) }
{
    let times = edition.times_of(alloc, run)?;
    let mut rows = List::new(alloc);
    for valid in times.as_slice() {
        push_some(&mut rows, row_of(edition, run, *valid)?)?;
    }
    Ok(rows)
}
