//! All files of an edition, or those by an instant, in the collection's order and in pieces that editions share.
ghost use Rattle.std.specs.Prelude.{◌≡◌, ◌++◌, All, IfOk, List as Items, OnOk, filter, false};
ghost use Rattle.std.specs.List.{list_any};
ghost use Rattle.fm_model.specs.declared.loaded.Loaded.{Loaded as File};
ghost use Rattle.fm_model.specs.Collection.{after_op, holds_older};
ghost use Rattle.fm_list.specs.Change.{keeps, HasGone};
ghost use Rattle.fm_edition.specs.Pieces as spec;

use crate::maps::files::{Files, Piece};
use crate::maps::pages::Change;
use crate::maps::shared::Shared;
use fm_base::{List, NoMemory};
use fm_list::Placed;
use fm_list::change::{changed, kept};
use fm_list::finding::{has_older, shares_run};
use fm_list::part::part_after;
use fm_model::Op;
use std::alloc::Global;
use std::marker::Model;

/// The files in their order: pieces of them, and the last few. A clause sees the list.
#[derive(Drop)]
pub(crate) struct Roll {
    pieces: List<Piece>,
    last: List<Placed>,
}

// Whether an operation may take files out of some, where `went` has all that it takes out of them.
fn may_lose(files: &[Placed], went: &[Placed], op: &Op) -> bool
    requires { HasGone went.now op.now files.now }
    ensures { result ≡ false → filter (keeps op.now) files.now ≡ files.now }
{
    match op {
        Op::Put(_) => shares_run(files, went),
        Op::Expire(cutoff) => has_older(files, *cutoff),
        Op::Retract(_) => shares_run(files, went),
    }
}

// The files after an operation, where `went` has all that it takes out of them. They are shared and not copied.
fn files_after(
    alloc: Global,
    files: &[Placed],
    went: &[Placed],
    op: &Op,
) -> Result<List<Placed>, NoMemory>
    requires { HasGone went.now op.now files.now }
    ensures { IfOk result (λ next. next ≡ after_op files.now op.now) }
{
    changed(kept(alloc, files, went, op)?, op)
}

// Adds a piece, unless it is empty.
fn push_piece(alloc: Global, pieces: &mut List<Piece>, files: List<Placed>) -> Result<(), NoMemory>
    ensures { OnOk result (spec.joined pieces.new ≡ spec.joined pieces.old ++ files) }
{
    if files.is_empty() {
        return Ok(());
    }
    pieces.push(Shared::new(alloc, files)?)?;
    Ok(())
}

// Adds what an operation leaves of a piece. A piece that loses no file is shared.
fn push_kept(
    alloc: Global,
    pieces: &mut List<Piece>,
    piece: &Piece,
    went: &[Placed],
    op: &Op,
) -> Result<(), NoMemory>
    requires { HasGone went.now op.now piece.now }
    ensures { OnOk result (spec.joined pieces.new
        ≡ spec.joined pieces.old ++ filter (keeps op.now) piece.now) }
{
    let files = piece.get().as_slice();
    if may_lose(files, went, op) {
        return push_piece(alloc, pieces, kept(alloc, files, went, op)?);
    }
    pieces.push(piece.clone()?)?;
    Ok(())
}

// What an operation leaves of each piece.
fn kept_pieces(
    alloc: Global,
    pieces: &[Piece],
    went: &[Placed],
    op: &Op,
) -> Result<List<Piece>, NoMemory>
    requires { All (HasGone went.now op.now) pieces.now }
    ensures { IfOk result (λ next. spec.joined next ≡ filter (keeps op.now) (spec.joined pieces.now)) }
{
    let items = Vec::with_capacity(alloc, pieces.len())?;
    let mut next = List { items };
    for piece in pieces {
        push_kept(alloc, &mut next, piece, went, op)?;
    }
    Ok(next)
}

// Whether a file of a piece is of a run before the cutoff.
fn has_older_piece(pieces: &[Piece], cutoff: i64) -> bool
    ensures { result ≡ list_any (λ (piece : Items File). holds_older piece cutoff) pieces.now }
{
    for piece in pieces {
        if has_older(piece.get().as_slice(), cutoff) {
            return true;
        }
    }
    false
}

impl Model for Roll {
    ghost use Rattle.std.specs.Prelude.{◌++◌, List};
    ghost use Rattle.fm_model.specs.declared.loaded.Loaded.{Loaded as File};
    ghost use Rattle.fm_edition.specs.Pieces.{joined};

    ghost Value = { List File };

    ghost view = { λ roll. joined roll.pieces ++ roll.last };
}

// The list of some pieces and the last files. These become a piece where they are enough.
fn rolled(
    alloc: Global,
    mut pieces: List<Piece>,
    last: List<Placed>,
    enough: usize,
) -> Result<Roll, NoMemory>
    ensures { IfOk result (λ roll. roll ≡ spec.joined pieces ++ last) }
{
    if last.len() < enough {
        return Ok(Roll { pieces, last });
    }
    push_piece(alloc, &mut pieces, last)?;
    Ok(Roll {
        pieces,
        last: List::new(alloc),
    })
}

// The files by an instant after an operation, and others behind them. The pieces are shorter than those of all files,
// since many lists change.
pub(crate) fn roll_after(
    alloc: Global,
    files: &Files<'_>,
    change: &Change<'_>,
    added: &[Placed],
) -> Result<Roll, NoMemory>
    requires { HasGone change.now.went.now change.now.op.now files.now }
    ensures { IfOk result (λ next. next ≡ filter (keeps change.now.op.now) files.now ++ added.now) }
{
    let pieces = kept_pieces(alloc, files.pieces, change.went, change.op)?;
    let last = part_after(alloc, files.last, change.went, change.op, added)?;
    rolled(alloc, pieces, last, 16)
}

impl Roll {
    ghost use Rattle.std.specs.Prelude.{◌≡◌, ◌↔◌, [], ◌∷◌, IfErr, IfOk, IsTrue};
    ghost use Rattle.fm_model.specs.Collection.{after_op, holds_older};
    ghost use Rattle.fm_list.specs.Change as change;

    // No files.
    pub(crate) fn new(alloc: Global) -> Roll
        ensures { result ≡ [] }
    {
        Roll {
            pieces: List::new(alloc),
            last: List::new(alloc),
        }
    }

    // The files after an operation, where `went` are those that it takes out.
    pub(crate) fn after(&self, alloc: Global, went: &[Placed], op: &Op) -> Result<Roll, NoMemory>
        requires { went.now ≡ change.gone self.now op.now }
        ensures { IfOk result (λ next. next ≡ after_op self.now op.now) }
    {
        let pieces = kept_pieces(alloc, self.pieces.as_slice(), went, op)?;
        let last = files_after(alloc, self.last.as_slice(), went, op)?;
        rolled(alloc, pieces, last, 64)
    }

    // The files, for a look-up.
    pub(crate) fn all(&self) -> Files<'_>
        ensures { result ≡ self.now }
    {
        Files {
            pieces: self.pieces.as_slice(),
            last: self.last.as_slice(),
        }
    }

    // The file, where it is alone and in no piece, else the same list.
    pub(crate) fn alone(self) -> Result<Placed, Roll>
        ensures one { IfOk result (λ file. self ≡ file ∷ []) }
        ensures other { IfErr result (λ roll. roll ≡ self) }
    {
        let Roll { pieces, mut last } = self;
        if !pieces.is_empty() || last.len() != 1 {
            return Err(Roll { pieces, last });
        }
        match last.items.pop() {
            Some(file) => Ok(file),
            None => unreachable!(),
        }
    }

    // Whether there are no files. No piece is looked into where there are some behind the pieces.
    pub(crate) fn is_empty(&self) -> bool
        ensures { IsTrue result ↔ (self.now ≡ []) }
    {
        self.last.is_empty() && self.all().up_to_two() == 0
    }

    // Whether a file is of a run before the cutoff.
    pub(crate) fn has_older(&self, cutoff: i64) -> bool
        ensures { result ≡ holds_older self.now cutoff }
    {
        has_older_piece(self.pieces.as_slice(), cutoff) || has_older(self.last.as_slice(), cutoff)
    }
}
