//! The cells of a collection: the rows of each run, and the offsets that they have.
ghost use Rattle.std.specs.Prelude.{◌≡◌, ◌++◌, ◌∷◌, [], All, IfOk, OnOk, length, map};
ghost use Rattle.fm_model.specs.Cell.{runs_of};
ghost use Rattle.fm_dataset.specs.Kept.{HasInstants};
ghost use Rattle.fm_dataset.specs.Values as values;
ghost use Rattle.fm_twod.specs.Cells as spec;

use fm_base::{Arc, List, NoMemory};
use fm_edition::Edition;
use fm_model::Row;
use fm_rows::Rows;
use fm_views::rows_of_run;
use std::alloc::Global;

/// The cells of a run: how many cells earlier runs have, and the offsets of its own, rising, in seconds.
#[derive(Drop)]
pub struct RunCells {
    pub run: i64,
    pub first: u64,
    pub offsets: List<i64>,
}

// The offset of a row.
fn offset_of(row: &Row) -> i64
    requires { HasInstants row.now }
    ensures { result ≡ values.offset_time row.now }
{
    row.valid - row.run
}

// The offsets of some rows.
fn offsets_in(alloc: Global, rows: &[Row]) -> Result<List<i64>, NoMemory>
    requires { All HasInstants rows.now }
    ensures { IfOk result (λ offsets. offsets ≡ map values.offset_time rows.now) }
{
    let mut offsets = List::new(alloc);
    for row in rows {
        offsets.push(offset_of(row))?;
    }
    Ok(offsets)
}

// Adds the cells of a run behind those of earlier ones.
#[tactic(auto, unfolding(fm_model::specs::Rows::rows))]
fn put_run(
    alloc: Global,
    edition: &Edition,
    run: i64,
    rows: &mut Rows,
    runs: &mut List<RunCells>,
) -> Result<(), NoMemory>
    ensures rows { OnOk result (rows.new ≡ rows.old ++ spec.run_rows edition.now.files run) }
    ensures runs { OnOk result
        (runs.new ≡ runs.old ++ spec.run_cells edition.now.files (length rows.old) run ∷ []) }
{
    // `proto` ensures what an edition keeps: the times of its files are instants.
    let _proto = edition.proto();
    let page = rows_of_run(alloc, edition, run)?;
    let offsets = offsets_in(alloc, page.as_slice())?;
    let first = rows.len() as u64;
    rows.push(Arc::new(alloc, page)?)?;
    runs.push(RunCells {
        run,
        first,
        offsets,
    })
}

// Adds the cells of some runs.
fn put_runs(
    alloc: Global,
    edition: &Edition,
    all: &[i64],
    rows: &mut Rows,
    runs: &mut List<RunCells>,
) -> Result<(), NoMemory>
    requires rows { rows.old ≡ [] }
    requires runs { runs.old ≡ [] }
    ensures rows { OnOk result (rows.new ≡ spec.rows_of_runs edition.now.files all.now) }
    ensures runs { OnOk result (runs.new ≡ spec.runs_from edition.now.files 0 all.now) }
{
    for run in all {
        put_run(alloc, edition, *run, rows, runs)?;
    }
    Ok(())
}

/// The cells of a collection: their rows, run after run, and those of each run.
#[derive(Drop)]
pub struct AllCells {
    pub rows: Arc<Rows>,
    pub runs: List<RunCells>,
}

// The cells of a collection.
#[tactic(auto, unfolding(crate::specs::Cells::cells_of))]
pub(crate) fn cells_of(alloc: Global, edition: &Edition) -> Result<AllCells, NoMemory>
    ensures rows { IfOk result (λ cells. cells.rows ≡ spec.cells_of edition.now.files) }
    ensures runs { IfOk result (λ cells. cells.runs
        ≡ spec.runs_from edition.now.files 0 (runs_of edition.now.files)) }
{
    let all = edition.runs(alloc)?;
    let mut rows = Rows::new(alloc);
    let mut runs = List::new(alloc);
    put_runs(alloc, edition, all.as_slice(), &mut rows, &mut runs)?;
    let rows = Arc::new(alloc, rows)?;
    Ok(AllCells { rows, runs })
}
