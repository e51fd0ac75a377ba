//! Opening a desk with its passes and shares.
ghost use Rattle.std.specs.Prelude.{◌≡◌, ◌≤◌, ◌<◌, [], replicate, IfOk, OnOk};
ghost use Rattle.fm_model.specs.Site.{IsPrototype};
ghost use Rattle.left_right.specs.Sides.{view};
ghost use Rattle.pub_snap.specs.Opening.{unused, IsNamed};
ghost use Rattle.pub_pass.specs.Copies.{IsOf};

use crate::desk::Desk;
use crate::share::{Share, cut};
use crate::swap::Board;
use fm_base::{Arc, List, NoMemory};
use fm_edition::Edition;
use fm_model::Proto;
use left_right::writer::Writer;
use pub_pass::{Front, Name, Page, Pass, Shown, open};
use std::alloc::Global;
use std::marker::Model;
use std::sync::ledger;

/// A desk that has no name yet.
#[derive(Drop)]
pub struct Blank {
    page: Page,
    first: Shown,
    passes: u32,
    shares: u32,
    ledger: ledger::Blank,
}

impl Model for Blank {
    ghost use Rattle.std.specs.Prelude.{◌≡◌, ◌<◌, ◌≤◌, []};
    ghost use Rattle.pub_snap.specs.Opening.{Opening};

    ghost Value = { Opening };

    ghost view = { λ blank. record {
      book = blank.first.book;
      ledger = blank.ledger.name;
      proto = blank.first.held.proto;
      passes = blank.passes;
      shares = blank.shares;
    } };

    ghost invariant = { λ blank. (blank.page.head.book ≡ blank.first.book) × (blank.first.log ≡ [])
        × (blank.ledger.parts ≡ blank.shares) × (0 < blank.passes) × (blank.passes ≤ 25) };
}

/// Prepares a desk of the empty collection over a prototype, with this number of passes and shares.
pub fn prepare(
    alloc: Global,
    proto: Arc<Proto>,
    passes: u32,
    shares: u32,
) -> Result<Blank, NoMemory>
    requires proto { IsPrototype proto }
    requires passes { (1 ≤ passes) × (passes ≤ 25) }
    requires shares { (1 ≤ shares) × (shares ≤ 9) }
    ensures proto { IfOk result (λ blank. blank.proto ≡ proto) }
    ensures passes { IfOk result (λ blank. blank.passes ≡ passes) }
    ensures shares { IfOk result (λ blank. blank.shares ≡ shares) }
{
    let edition = Edition::empty(alloc, proto)?;
    let edition = Arc::new(alloc, edition)?;
    let (page, front) = open();
    Ok(Blank {
        page,
        first: Shown::of(edition, front),
        passes,
        shares,
        ledger: ledger::Blank::new(u64::from(shares)),
    })
}

impl Blank {
    /// The desk, its passes and its shares, under a name that stands for this blank.
    pub fn open<N: Name>(
        self,
        alloc: Global,
    ) -> Result<(Desk<N>, List<Pass<N>>, List<Share<N>>), NoMemory>
        requires { IsNamed self N.book N.name N.proto N.parts }
        ensures desk { IfOk result (λ opened. opened.0 ≡ []) }
        ensures passes { IfOk result (λ opened. opened.1 ≡ replicate self.passes (unused N.proto)) }
        ensures shares { IfOk result (λ opened. opened.2 ≡ replicate self.shares 0) }
    {
        let Blank {
            page,
            first,
            passes,
            shares,
            ledger,
        } = self;
        let (total, mut rest) = ledger.open::<N>();
        let front = first.front().again();
        let (board, seats, shares) = seated(alloc, first, passes, &mut rest, shares)?;
        let desk = Desk::of(board, page, front, total, rest, List::new(alloc));
        Ok((desk, seats, shares))
    }
}

// The writer, the passes with their seats, and the shares. A writer ends by waiting alone, so nothing may fail once it
// is there. Each call of the desk that publishes asks for the room that it needs.
fn seated<N: Name>(
    alloc: Global,
    first: Shown,
    passes: u32,
    rest: &mut ledger::Share<N>,
    shares: u32,
) -> Result<(Board<N>, List<Pass<N>>, List<Share<N>>), NoMemory>
    requires of { (first.book ≡ N.book) × (first.held.proto ≡ N.proto) × (first.log ≡ []) }
    requires passes { (0 < passes) × (passes ≤ 25) }
    requires rest { (rest.old.parts ≡ shares) × (rest.old.amount ≡ 0) }
    ensures shown { IfOk result (λ seated. seated.0.desk.shown.value ≡ first) }
    ensures seen { IfOk result (λ seated. (view seated.0.desk.place).seen ≡ []) }
    ensures passes { IfOk result (λ seated. seated.1 ≡ replicate passes (unused N.proto)) }
    ensures shares { IfOk result (λ seated. seated.2 ≡ replicate shares 0) }
    ensures rest { OnOk result ((rest.new.parts ≡ 0) × (rest.new.amount ≡ 0)) }
{
    let shares = cut(alloc, rest, shares)?;
    let mut seats = unseated(alloc, first.front(), passes)?;
    let board = board_of(alloc, first, passes)?;
    seat_all(&board, seats.items.as_mut_slice());
    Ok((board, seats, shares))
}

// A writer of two copies that hold the same, for `readers` readers.
fn board_of<N: Name>(alloc: Global, first: Shown, readers: u32) -> Result<Board<N>, NoMemory>
    requires of { (first.book ≡ N.book) × (first.held.proto ≡ N.proto) }
    requires readers { (0 < readers) × (readers ≤ 25) }
    ensures shown { IfOk result (λ board. board.desk.shown.value ≡ first) }
    ensures seen { IfOk result (λ board. (view board.desk.place).seen ≡ []) }
{
    let second = first.again()?;
    Ok(Writer::new(alloc, first, second, readers as usize)?)
}

// `count` passes without a seat.
fn unseated<N: Name>(alloc: Global, front: &Front, count: u32) -> Result<List<Pass<N>>, NoMemory>
    requires known { IsOf N.book N.proto front.now.seen.book front.now.seen.log }
    requires empty { front.now.seen.log ≡ [] }
    ensures { IfOk result (λ passes. passes ≡ replicate count (unused N.proto)) }
{
    let mut passes = List::new(alloc);
    for _made in 0..count {
        passes.push(Pass::unseated(front.again()))?;
    }
    Ok(passes)
}

// Gives each pass a seat.
fn seat_all<N: Name>(board: &Board<N>, passes: &mut [Pass<N>])
    ensures { passes.new ≡ passes.old }
{
    for i in 0..passes.len() {
        passes[i].sit(board.factory());
    }
}
