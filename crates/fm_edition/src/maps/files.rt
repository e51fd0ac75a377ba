//! Files in their order, in pieces and the last few, as a look-up goes through them.
ghost use Rattle.std.specs.Prelude.{◌≡◌, ◌+◌, ◌≤◌, ◌||◌, IfOk, List as Items, length, min};
ghost use Rattle.std.specs.List.{list_any};
ghost use Rattle.fm_model.specs.declared.loaded.Loaded.{Loaded as File};
ghost use Rattle.fm_model.specs.Collection.{holds};
ghost use Rattle.fm_list.specs.Change as change;
ghost use Rattle.fm_edition.specs.Pieces as spec;

mod found;

use crate::maps::shared::Shared;
use fm_base::{List, NoMemory};
use fm_list::Placed;
use fm_list::change::push_gone;
use fm_list::finding::has_name;
use fm_model::Op;
use std::alloc::Global;
use std::marker::Model;

/// Some files that stand one after the other.
pub(crate) type Piece = Shared<List<Placed>>;

/// Pieces of files, and the last few. A clause sees the list.
#[derive(Drop)]
pub(crate) struct Files<'a> {
    pub pieces: &'a [Piece],
    pub last: &'a [Placed],
}

impl<'a> Model for Files<'a> {
    ghost use Rattle.std.specs.Prelude.{◌++◌, List};
    ghost use Rattle.fm_model.specs.declared.loaded.Loaded.{Loaded as File};
    ghost use Rattle.fm_edition.specs.Pieces.{joined};

    ghost Value = { List File };

    ghost view = { λ files. joined files.pieces.now ++ files.last.now };
}

// How many there are with some more files, up to two.
fn up_to_two(count: usize, files: &[Placed]) -> usize
    requires { count ≤ 2 }
    ensures { result ≡ min (count + length files.now) 2 }
{
    (count + files.len()).min(2)
}

// The files that an operation takes out of all pieces.
fn gone_of_pieces(alloc: Global, pieces: &[Piece], op: &Op) -> Result<List<Placed>, NoMemory>
    ensures { IfOk result (λ gone. gone ≡ change.gone (spec.joined pieces.now) op.now) }
{
    let mut gone = List::new(alloc);
    for piece in pieces {
        push_gone(&mut gone, piece.get().as_slice(), op)?;
    }
    Ok(gone)
}

// Whether a file of a piece has this name.
#[tactic(auto, unfolding(fm_model::specs::Collection::holds))]
fn has_name_in(pieces: &[Piece], name: &[u8]) -> bool
    ensures { result ≡ list_any (λ (piece : Items File). holds piece name.now) pieces.now }
{
    pieces
        .iter()
        .any(|piece| has_name(piece.get().as_slice(), name))
}

impl<'a> Files<'a> {
    ghost use Rattle.std.specs.Prelude.{◌≡◌, IfOk, length, min};
    ghost use Rattle.fm_model.specs.Collection.{holds};
    ghost use Rattle.fm_list.specs.Change as change;

    // Files of one list.
    pub(crate) fn of(last: &'a [Placed]) -> Files<'a>
        ensures { result ≡ last.now }
    {
        Files { pieces: &[], last }
    }

    // The same files for another look-up.
    pub(crate) fn again(&self) -> Files<'a>
        ensures { result ≡ self.now }
    {
        Files {
            pieces: self.pieces,
            last: self.last,
        }
    }

    // How many there are, up to two.
    pub(crate) fn up_to_two(&self) -> usize
        ensures { result ≡ min (length self.now) 2 }
    {
        let pieces = self.pieces;
        let mut count = 0;
        for piece in pieces {
            count = up_to_two(count, piece.get().as_slice());
        }
        up_to_two(count, self.last)
    }

    // The files that an operation takes out.
    pub(crate) fn gone(&self, alloc: Global, op: &Op) -> Result<List<Placed>, NoMemory>
        ensures { IfOk result (λ gone. gone ≡ change.gone self.now op.now) }
    {
        let mut gone = gone_of_pieces(alloc, self.pieces, op)?;
        push_gone(&mut gone, self.last, op)?;
        Ok(gone)
    }

    // Whether a file has this name.
    pub(crate) fn has_name(&self, name: &[u8]) -> bool
        ensures { result ≡ holds self.now name.now }
    {
        has_name_in(self.pieces, name) || has_name(self.last, name)
    }
}
