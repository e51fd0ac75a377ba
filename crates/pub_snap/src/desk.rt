//! The one that publishes.
ghost use Rattle.std.specs.Prelude.{◌≡◌, [], length, sum};
ghost use Rattle.fm_model.specs.Collection.{coll, tally};
ghost use Rattle.left_right.specs.Sides.{view};
ghost use Rattle.pub_look.specs.History.{Keeps};
ghost use Rattle.pub_pass.specs.Copies.{IsOf};

mod publishing;

use crate::share::{Share, count_all};
use crate::swap::Board;
use fm_base::{Bytes, List};
use fm_edition::Edition;
use fm_model::Tally;
use pub_pass::{Front, Name, Page, Receipt};
use std::marker::Model;
use std::sync::{Wait, ledger};

/// Publishes operations in one log. Contracts see it as the log. It isn't let go: it ends by `close`.
pub struct Desk<N: Name> {
    board: Option<Board<N>>,
    // Both copies hold the same, and the queue of the board has room for one more.
    level: bool,
    page: Page,
    front: Front,
    // A byte for each operation of the log.
    marks: Bytes,
    total: ledger::Book<N>,
    // What no share has of the ledger.
    rest: ledger::Share<N>,
}

impl<N: Name> Model for Desk<N> {
    ghost use Rattle.std.specs.Prelude.{◌≡◌, length, List, IsSomeAnd};
    ghost use Rattle.fm_model.specs.declared.op.Op.{Op as Operation};
    ghost use Rattle.left_right.specs.Sides.{view as view_of};
    ghost use Rattle.pub_pass.specs.declared.rule.Known.{Known};
    ghost use Rattle.pub_pass.specs.Copies.{IsOf};
    ghost use Rattle.pub_snap.specs.Rule.{IsAtDesk};

    ghost Value = { List Operation };

    ghost view = { λ desk. desk.front.seen.log };

    ghost invariant = { λ desk. IsOf N.book N.proto desk.front.seen.book desk.front.seen.log
        × (desk.page.head.book ≡ N.book)
        × IsSomeAnd desk.board (λ board. IsAtDesk N.proto desk.front.seen.log board.desk.shown.value
        (view_of {V = Known} board.desk.place) desk.total.total)
        × (desk.rest.parts ≡ 0) × (desk.rest.amount ≡ 0) × (length desk.marks ≡ length desk.front.seen.log) };
}

/// The end of a desk: how much is held, the number of operations, and the sum of all shares.
#[derive(Clone, Copy, Debug, PartialEq, Eq)]
pub struct Closed {
    pub tally: Tally,
    pub revision: u64,
    pub total: u64,
}

impl<N: Name> Desk<N> {
    pub(crate) fn of(
        board: Board<N>,
        page: Page,
        front: Front,
        total: ledger::Book<N>,
        rest: ledger::Share<N>,
        marks: Bytes,
    ) -> Desk<N>
        requires known { IsOf N.book N.proto front.seen.book front.seen.log }
        requires page { page.head.book ≡ N.book }
        requires empty { (front.seen.log ≡ []) × (marks ≡ []) }
        requires shown { (board.desk.shown.value.held.proto ≡ N.proto) × (board.desk.shown.value.log ≡ []) }
        requires view { (view board.desk.place).seen ≡ [] }
        requires ledger { (total.total ≡ 0) × (rest.parts ≡ 0) × (rest.amount ≡ 0) }
        ensures { result ≡ [] }
    {
        Desk {
            board: Some(board),
            level: false,
            page,
            front,
            marks,
            total,
            rest,
        }
    }

    /// The whole log.
    pub fn receipt(&self) -> Receipt<N>
        ensures { result ≡ self.now }
    {
        Receipt::of(self.front.again())
    }

    /// How much is held.
    pub fn tally(&self) -> Tally
        ensures { result ≡ tally (coll self.now) }
    {
        self.edition().tally()
    }

    /// The number of operations.
    pub fn revision(&self) -> u64
        ensures { result ≡ length self.now }
    {
        self.front.len()
    }

    /// Ends the desk once no reader is inside a copy. All shares are handed back.
    pub fn close<R: Wait>(self, rt: &R, shares: List<Share<N>>) -> Closed
        requires { length shares ≡ N.parts }
        ensures tally { result.tally ≡ tally (coll self) }
        ensures revision { result.revision ≡ length self }
        ensures total { result.total ≡ sum shares }

        // Each operation was counted by one share.
        ensures whole { result.total ≡ result.revision }
    {
        let tally = self.tally();
        let revision = self.revision();
        let Desk {
            board,
            level: _,
            page: _,
            front: _,
            marks: _,
            total: mut book,
            rest,
        } = self;
        let total = count_all(&mut book, rest, shares);
        if let Some(board) = board {
            board.take(rt);
        }
        Closed {
            tally,
            revision,
            total,
        }
    }

    // What readers see.
    fn edition(&self) -> &Edition
        ensures stands { Keeps result.now self.now }
        ensures proto { result.now.proto ≡ N.proto }
    {
        match &self.board {
            Some(board) => board.published().edition(),
            None => unreachable!(),
        }
    }
}
