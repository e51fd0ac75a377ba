//! The offsets of all cells.
ghost use Rattle.std.specs.Prelude.{◌≡◌, IfOk};
ghost use Rattle.fm_twod.specs.Cells as spec;

use crate::cells::RunCells;
use fm_base::{List, NoMemory};
use fm_edition::{append, in_order};
use std::alloc::Global;

// The offsets of some cells, each once, rising.
pub(crate) fn offsets_of(alloc: Global, runs: &[RunCells]) -> Result<List<i64>, NoMemory>
    ensures { IfOk result (λ offsets. offsets ≡ spec.offsets_of runs.now) }
{
    let mut offsets = List::new(alloc);
    for cells in runs {
        append(&mut offsets, cells.offsets.as_slice())?;
    }
    Ok(in_order(offsets))
}
