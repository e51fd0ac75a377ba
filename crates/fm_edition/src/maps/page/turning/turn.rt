//! What an operation does to the files by an instant.
ghost use Rattle.std.specs.Prelude.{◌≡◌, ◌++◌, [], IfOk, List as Items, Option, filter, if◌then◌else◌, slice_get};
ghost use Rattle.fm_model.specs.declared.loaded.Loaded.{Loaded as File};
ghost use Rattle.fm_model.specs.Rising.{Rises};
ghost use Rattle.fm_list.specs.Change.{added as added_by, keeps, HasGone};
ghost use Rattle.fm_list.specs.Selected.{selects, AreOwn};
ghost use Rattle.fm_edition.specs.Page as page;
ghost use Rattle.fm_edition.specs.Turning as spec;

use crate::maps::file_list::FileList;
use crate::maps::files::Files;
use crate::maps::pages::Change;
use crate::maps::roll::roll_after;
use fm_base::NoMemory;
use fm_list::Placed;
use fm_list::finding::is_among;
use fm_model::Op;
use std::alloc::Global;

/// What an operation does to the files by an instant: it leaves them, takes some out, or adds one as well.
#[derive(Clone, Copy)]
pub(crate) enum Turn {
    Leaves,
    Takes,
    Adds,
}

// Whether an operation adds its file at an instant.
fn adds_at(instant: i64, change: &Change<'_>) -> bool
    requires { AreOwn change.now.by change.now.op.now change.now.own.now }
    ensures { filter (selects change.now.by instant) (added_by change.now.op.now)
        ≡ if result then added_by change.now.op.now else [] }
{
    match change.op {
        Op::Put(_) => is_among(change.own, instant),
        _ => false,
    }
}

// What an operation does to the files by an instant.
pub(crate) fn turn_at(instant: i64, touched: &[i64], change: &Change<'_>) -> Turn
    requires touched { Rises touched.now }
    requires own { AreOwn change.now.by change.now.op.now change.now.own.now }
    ensures { (held : Option (Items File)) → page.turned_at change.now.by touched.now change.now.op.now instant held
        ≡ spec.turned result change.now.op.now held }
{
    if !is_among(touched, instant) {
        return Turn::Leaves;
    }
    if adds_at(instant, change) {
        Turn::Adds
    } else {
        Turn::Takes
    }
}

// The files at an index, and none behind the last.
fn files_at(lists: &[FileList], index: usize) -> Files<'_>
    ensures { result ≡ page.or_none (slice_get lists.now index) }
{
    match lists.get(index) {
        Some(list) => list.all(),
        None => Files::of(&[]),
    }
}

// The list at an index, shared, unless the index is behind the last.
fn list_at(lists: &[FileList], index: usize) -> Result<Option<FileList>, NoMemory>
    ensures { IfOk result (λ list. list ≡ slice_get lists.now index) }
{
    match lists.get(index) {
        Some(list) => Ok(Some(list.share()?)),
        None => Ok(None),
    }
}

// The files after an operation that touches them, and others behind them, unless there are none.
fn touched_list(
    alloc: Global,
    files: &Files<'_>,
    change: &Change<'_>,
    added: &[Placed],
) -> Result<Option<FileList>, NoMemory>
    requires { HasGone change.now.went.now change.now.op.now files.now }
    ensures { IfOk result (λ list. list ≡ page.some_of (filter (keeps change.now.op.now) files.now ++ added.now)) }
{
    let roll = roll_after(alloc, files, change, added)?;
    if roll.is_empty() {
        return Ok(None);
    }
    Ok(Some(FileList::new(alloc, roll)?))
}

// The list at an index after a turn, unless it has no files.
pub(crate) fn turned_list(
    alloc: Global,
    lists: &[FileList],
    index: usize,
    turn: Turn,
    change: &Change<'_>,
) -> Result<Option<FileList>, NoMemory>
    requires gone { HasGone change.now.went.now change.now.op.now (page.or_none (slice_get lists.now index)) }
    requires added { change.now.added.now ≡ added_by change.now.op.now }
    ensures { IfOk result (λ list. list ≡ spec.turned turn change.now.op.now (slice_get lists.now index)) }
{
    let files = files_at(lists, index);
    match turn {
        Turn::Leaves => list_at(lists, index),
        Turn::Takes => touched_list(alloc, &files, change, &[]),
        Turn::Adds => touched_list(alloc, &files, change, change.added),
    }
}
