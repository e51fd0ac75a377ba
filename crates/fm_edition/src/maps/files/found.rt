//! Which rows, times and amounts some files have.
ghost use Rattle.std.specs.Prelude.{◌≡◌, IfSome, IsNone, None, Some};
ghost use Rattle.fm_model.specs.Cell.{cell};
ghost use Rattle.fm_list.specs.Selected.{AreSound};
ghost use Rattle.fm_edition.specs.Pieces.{joined};

use crate::counting::{nothing, with_gone};
use crate::instants::{in_order, push_times};
use crate::maps::files::{Files, Piece};
use fm_base::{Arc, List, NoMemory};
use fm_list::finding::cell_of;
use fm_list::part::{best_behind, oldest_behind};
use fm_model::{Loaded, Op, Tally};
use std::alloc::Global;

// The last file of all pieces that is of a run and has a valid time, and the time's index in it.
fn cell_in(pieces: &[Piece], run: i64, valid: i64, near: usize) -> Option<(&Arc<Loaded>, u32)>
    requires { AreSound (joined pieces.now) }
    ensures found { IfSome result (λ found. cell (joined pieces.now) run valid ≡ Some (found.0.now, found.1)) }
    ensures none { IsNone result → cell (joined pieces.now) run valid ≡ None }
{
    let mut before = pieces.len();
    while before > 0 {
        before -= 1;
        let files = pieces[before].get().as_slice();
        if let Some((file, index)) = cell_of(files, run, valid, near) {
            return Some((file, index));
        }
    }
    None
}

impl<'a> Files<'a> {
    ghost use Rattle.std.specs.Prelude.{◌≡◌, IfOk, IfSome, IsNone, None, Some};
    ghost use Rattle.fm_model.specs.Cell.{best, cell, times_of_run};
    ghost use Rattle.fm_model.specs.Collection.{tally, IsWithin};
    ghost use Rattle.fm_list.specs.Change as change;
    ghost use Rattle.fm_list.specs.Selected as spec;
    ghost use Rattle.fm_edition.specs.Indexes.{oldest_run};

    // The best run for a valid time that each of the files has.
    pub(crate) fn best(&self, valid: i64, least: Option<i64>) -> Option<i64>
        requires { spec.HaveTime valid self.now }
        ensures { result ≡ best self.now valid least }
    {
        let pieces = self.pieces;
        let mut greatest = None;
        for piece in pieces {
            greatest = best_behind(greatest, piece.get().as_slice(), valid, least);
        }
        best_behind(greatest, self.last, valid, least)
    }

    // The last file of a run with a valid time, and the time's index in it.
    pub(crate) fn cell_of(&self, run: i64, valid: i64) -> Option<(&'a Arc<Loaded>, u32)>
        requires { spec.AreSound self.now }
        ensures found { IfSome result (λ found. cell self.now run valid ≡ Some (found.0.now, found.1)) }
        ensures none { IsNone result → cell self.now run valid ≡ None }
    {
        self.cell_near(run, valid, 0)
    }

    // The same. A look into a file begins at the index `near`.
    pub(crate) fn cell_near(
        &self,
        run: i64,
        valid: i64,
        near: usize,
    ) -> Option<(&'a Arc<Loaded>, u32)>
        requires { spec.AreSound self.now }
        ensures found { IfSome result (λ found. cell self.now run valid ≡ Some (found.0.now, found.1)) }
        ensures none { IsNone result → cell self.now run valid ≡ None }
    {
        match cell_of(self.last, run, valid, near) {
            Some((file, index)) => Some((file, index)),
            None => cell_in(self.pieces, run, valid, near),
        }
    }

    // The least of their runs, and 0 where there is no file.
    pub(crate) fn oldest(&self) -> i64
        ensures { result ≡ oldest_run self.now }
    {
        let pieces = self.pieces;
        let mut least = None;
        for piece in pieces {
            least = oldest_behind(least, piece.get().as_slice());
        }
        oldest_behind(least, self.last).unwrap_or(0)
    }

    // The valid times of a run's files, each once, rising.
    pub(crate) fn times_of(&self, alloc: Global, run: i64) -> Result<List<i64>, NoMemory>
        ensures { IfOk result (λ times. times ≡ times_of_run self.now run) }
    {
        let pieces = self.pieces;
        let mut times = List::new(alloc);
        for piece in pieces {
            push_times(&mut times, piece.get().as_slice(), run)?;
        }
        push_times(&mut times, self.last, run)?;
        Ok(in_order(times))
    }

    // How much an operation takes out of the files.
    pub(crate) fn tally_gone(&self, op: &Op) -> Tally
        requires { IsWithin (tally (change.gone self.now op.now)) }
        ensures { result ≡ tally (change.gone self.now op.now) }
    {
        let pieces = self.pieces;
        let mut gone = nothing();
        for piece in pieces {
            gone = with_gone(gone, piece.get().as_slice(), op);
        }
        with_gone(gone, self.last, op)
    }
}
