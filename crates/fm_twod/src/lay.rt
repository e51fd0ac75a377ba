//! Laying a collection out by run and offset.
ghost use Rattle.std.specs.Prelude.{◌≡◌, ◌≢◌, [], IfOk, length};
ghost use Rattle.fm_base.specs.Answer.{Answers};
ghost use Rattle.fm_model.specs.Cell.{runs_of};
ghost use Rattle.fm_twod.specs.Asked.{some_laid};
ghost use Rattle.fm_twod.specs.Cells as spec;
ghost use Rattle.fm_twod.specs.Declarations.{grid_decls, sides_of};
ghost use Rattle.fm_twod.specs.Laid.{laid_of};

use crate::cells::{AllCells, cells_of};
use crate::declare::{grid_decls, sides_of};
use crate::grid::Grid;
use crate::offsets::offsets_of;
use dap_model::Decl;
use dap_reply::DapFault;
use fm_base::{Arc, Fail, List, NoMemory};
use fm_dataset::{Dataset, dataset};
use fm_edition::Edition;
use fm_model::ViewName;
use fm_rows::Rows;
use std::alloc::Global;

// The dataset of all cells: a row shows its valid time along the axis, as in the best time series.
#[tactic(auto, using(crate::proofs::LaidLemmas::all_rows))]
fn set_of(alloc: Global, edition: &Edition, rows: Arc<Rows>) -> Result<Dataset, NoMemory>
    requires rows { rows ≡ spec.cells_of edition.now.files }
    requires some { rows ≢ [] }
    ensures { IfOk result (λ set. set ≡ (laid_of edition.now.proto edition.now.files).cells) }
{
    let set = dataset(alloc, edition.proto(), rows, ViewName::Best, b"")?;
    Ok(set)
}

// The declarations of these numbers of runs and offsets.
fn decls_of(alloc: Global, set: &Dataset, runs: u64, offsets: u64) -> Result<List<Decl>, NoMemory>
    ensures { IfOk result (λ decls. decls
        ≡ grid_decls (sides_of set.now.proto runs offsets) set.now.proto (length set.now.rows)) }
{
    let sides = sides_of(alloc, set.proto().get(), runs, offsets)?;
    grid_decls(alloc, &sides, set)
}

// The view of a collection's cells, of which there is one.
fn grid_of(alloc: Global, edition: &Edition, found: AllCells) -> Result<Grid, NoMemory>
    requires rows { found.rows ≡ spec.cells_of edition.now.files }
    requires runs { found.runs ≡ spec.runs_from edition.now.files 0 (runs_of edition.now.files) }
    requires some { found.rows ≢ [] }
    ensures { IfOk result (λ grid. grid ≡ laid_of edition.now.proto edition.now.files) }
{
    // `proto` ensures what an edition keeps: the limits, and that its files fit its prototype.
    let _proto = edition.proto();
    let AllCells { rows, runs } = found;
    let Ok(cells) = set_of(alloc, edition, rows) else {
        drop(runs);
        return Err(NoMemory);
    };
    let Ok(offsets) = offsets_of(alloc, runs.as_slice()) else {
        drop(cells);
        drop(runs);
        return Err(NoMemory);
    };
    let Ok(decls) = decls_of(alloc, &cells, runs.len() as u64, offsets.len() as u64) else {
        drop(cells);
        drop(runs);
        return Err(NoMemory);
    };
    Ok(Grid {
        cells,
        runs,
        offsets,
        decls,
    })
}

// The view of a collection, or that it has no cell.
#[tactic(auto, using(crate::proofs::LaidLemmas::some_cells), unfolding(crate::specs::Asked::some_laid))]
pub(crate) fn lay_out(alloc: Global, edition: &Edition) -> Result<Grid, Fail<DapFault>>
    ensures { Answers (some_laid edition.now) result }
{
    let found = cells_of(alloc, edition)?;
    if found.rows.get().is_empty() {
        drop(found);
        return Err(Fail::Fault(DapFault::NoRows));
    }
    let grid = grid_of(alloc, edition, found)?;
    Ok(grid)
}
