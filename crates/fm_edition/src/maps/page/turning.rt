//! The lists of a page after an operation, in the making. What becomes of a list of files is made once.
ghost use Rattle.std.specs.Prelude.{◌≡◌, ◌≤◌, IfOk, IfSome, OnOk, length, slice_get};
ghost use Rattle.fm_edition.specs.Page as page;
ghost use Rattle.fm_edition.specs.Turning as spec;

mod spots;
mod turn;

use crate::maps::file_list::FileList;
use crate::maps::page::Entry;
use crate::maps::pages::Change;
use fm_base::{List, NoMemory};
use spots::{Spot, Spots, note, unknown};
use std::alloc::Global;
use turn::{Turn, turn_at, turned_list};

/// The lists of the next page so far, and where each list of the page before stands among them. The last of these spots
/// are those of no files.
#[derive(Drop)]
pub(crate) struct Turning<'a> {
    pub before: &'a [FileList],
    pub lists: List<FileList>,
    pub spots: List<Spots>,
}

// The index of the files of an entry, and that of no files where there is no entry.
fn index_of(lists: &[FileList], entry: Option<Entry>) -> usize
    requires { IfSome entry (page.IsListed lists.now) }
    ensures within { result ≤ length lists.now }
    ensures files { slice_get lists.now result ≡ spec.files_of lists.now entry }
{
    match entry {
        Some(entry) => entry.list,
        None => lists.len(),
    }
}

// Adds a list, where there is one, and tells its index.
fn push_list(lists: &mut List<FileList>, list: Option<FileList>) -> Result<Option<usize>, NoMemory>
    ensures stay { OnOk result (spec.Stay lists.old lists.new) }
    ensures stands { IfOk result (spec.StandAt lists.new list) }
{
    let Some(list) = list else {
        return Ok(None);
    };
    let at = lists.len();
    lists.push(list)?;
    Ok(Some(at))
}

impl<'a> Turning<'a> {
    ghost use Rattle.std.specs.Prelude.{◌≡◌, ◌≤◌, ◌++◌, [], All, IfOk, IfSome, OnOk, length, map, slice_get};
    ghost use Rattle.std.specs.List.{cons_option};
    ghost use Rattle.fm_model.specs.declared.op.Op.{Op as Operation};
    ghost use Rattle.fm_model.specs.Rising.{Rises};
    ghost use Rattle.fm_list.specs.Change.{added, HasGone};
    ghost use Rattle.fm_list.specs.Selected.{AreOwn};
    ghost use Rattle.fm_edition.specs.Page as page;
    ghost use Rattle.fm_edition.specs.Turning as spec;

    // No lists yet, where the page before has these.
    pub(crate) fn new(alloc: Global, before: &'a [FileList]) -> Result<Turning<'a>, NoMemory>
        ensures before { IfOk result (λ turning. turning.before.now ≡ before.now) }
        ensures lists { IfOk result (λ turning. turning.lists ≡ []) }
        ensures known { IfOk result (λ turning. (op : Operation) → spec.IsTurning op turning) }
    {
        Ok(Turning {
            before,
            lists: List::new(alloc),
            spots: unknown(alloc, before)?,
        })
    }

    // Makes the files at an index as they are after a turn, and notes where they stand.
    fn make(
        &mut self,
        alloc: Global,
        index: usize,
        turn: Turn,
        change: &Change<'_>,
    ) -> Result<Option<usize>, NoMemory>
        requires index { index ≤ length self.old.before.now }
        requires gone { HasGone change.now.went.now change.now.op.now
            (page.or_none (slice_get self.old.before.now index)) }
        requires added { change.now.added.now ≡ added change.now.op.now }
        requires known { spec.IsTurning change.now.op.now self.old }
        ensures { IfOk result (spec.Finds change.now.op.now
            (spec.turned turn change.now.op.now (slice_get self.old.before.now index)) self.old self.new) }
    {
        let list = turned_list(alloc, self.before, index, turn, change)?;
        let at = push_list(&mut self.lists, list)?;
        note(&mut self.spots, index, turn, at);
        Ok(at)
    }

    // Where the files at an index stand after a turn.
    fn index_after(
        &mut self,
        alloc: Global,
        index: usize,
        turn: Turn,
        change: &Change<'_>,
    ) -> Result<Option<usize>, NoMemory>
        requires index { index ≤ length self.old.before.now }
        requires gone { HasGone change.now.went.now change.now.op.now
            (page.or_none (slice_get self.old.before.now index)) }
        requires added { change.now.added.now ≡ added change.now.op.now }
        requires known { spec.IsTurning change.now.op.now self.old }
        ensures { IfOk result (spec.Finds change.now.op.now
            (spec.turned turn change.now.op.now (slice_get self.old.before.now index)) self.old self.new) }
    {
        match self.spots.as_slice()[index].after(turn) {
            Spot::Known(at) => Ok(at),
            Spot::Unknown => self.make(alloc, index, turn, change),
        }
    }

    // Adds an instant with its files after an operation, unless there are none.
    pub(crate) fn push(
        &mut self,
        alloc: Global,
        entries: &mut List<Entry>,
        instant: i64,
        entry: Option<Entry>,
        touched: &[i64],
        change: &Change<'_>,
    ) -> Result<(), NoMemory>
        requires entry { IfSome entry (page.IsListed self.old.before.now) }
        requires gone { HasGone change.now.went.now change.now.op.now
            (page.or_none (spec.files_of self.old.before.now entry)) }
        requires touched { Rises touched.now }
        requires own { AreOwn change.now.by change.now.op.now change.now.own.now }
        requires added { change.now.added.now ≡ added change.now.op.now }
        requires known { spec.IsTurning change.now.op.now self.old }
        requires listed { All (page.IsListed self.old.lists) entries.old }
        ensures before { OnOk result (self.new.before.now ≡ self.old.before.now) }
        ensures known { OnOk result (spec.IsTurning change.now.op.now self.new) }
        ensures listed { OnOk result (All (page.IsListed self.new.lists) entries.new) }
        ensures shown { OnOk result (map (page.shown self.new.lists) entries.new
            ≡ map (page.shown self.old.lists) entries.old
            ++ cons_option (spec.turned_entry change.now.by touched.now change.now.op.now instant
            (spec.files_of self.old.before.now entry)) []) }
    {
        let index = index_of(self.before, entry);
        let turn = turn_at(instant, touched, change);
        let Some(list) = self.index_after(alloc, index, turn, change)? else {
            return Ok(());
        };
        entries.push(Entry { instant, list })
    }
}
