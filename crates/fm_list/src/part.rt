//! What an operation leaves of some files and adds behind them, and the best and the least run of files that stand
//! behind others.
ghost use Rattle.std.specs.Prelude.{◌≡◌, ◌++◌, IfOk, List as Items, filter};
ghost use Rattle.fm_model.specs.declared.loaded.Loaded.{Loaded as File};
ghost use Rattle.fm_model.specs.Cell.{best};
ghost use Rattle.fm_list.specs.Change.{keeps, HasGone};
ghost use Rattle.fm_list.specs.Found as found;
ghost use Rattle.fm_list.specs.Selected as spec;

use crate::change::kept;
use crate::finding::raised_by;
use crate::placed::Placed;
use fm_base::{List, NoMemory};
use fm_model::Op;
use std::alloc::Global;

/// The best run of some files and more behind them that all have the valid time, where `greatest` is that of the first.
pub fn best_behind(
    greatest: Option<i64>,
    files: &[Placed],
    valid: i64,
    least: Option<i64>,
) -> Option<i64>
    requires { spec.HaveTime valid files.now }
    ensures { (others : Items File) → best others valid least ≡ greatest
        → best (others ++ files.now) valid least ≡ result }
{
    let mut raised = greatest;
    for file in files {
        raised = raised_by(raised, file, valid, least);
    }
    raised
}

// The lesser of a run and of one that came before it, where there is one.
fn older(before: Option<i64>, run: i64) -> i64
    ensures { result ≡ found.older before run }
{
    match before {
        Some(other) => { if run < other { run } else { other } }
        None => run,
    }
}

/// The least run of some files and more behind them, where `before` is that of the first. `None` where there is none.
pub fn oldest_behind(before: Option<i64>, files: &[Placed]) -> Option<i64>
    ensures { result ≡ found.oldest_behind before files.now }
{
    let mut oldest = before;
    for file in files {
        oldest = Some(older(oldest, file.run()));
    }
    oldest
}

/// The files that an operation leaves of some, and others behind them, where `went` has all that it takes out of them.
pub fn part_after(
    alloc: Global,
    files: &[Placed],
    went: &[Placed],
    op: &Op,
    added: &[Placed],
) -> Result<List<Placed>, NoMemory>
    requires { HasGone went.now op.now files.now }
    ensures { IfOk result (λ next. next ≡ filter (keeps op.now) files.now ++ added.now) }
{
    let mut next = kept(alloc, files, went, op)?;
    for file in added {
        next.push(file.share()?)?;
    }
    Ok(next)
}
