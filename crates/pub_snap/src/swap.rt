//! Showing the next copy to readers, and then having the other copy hold the same.
ghost use Rattle.std.specs.Prelude.{◌≡◌, ℕ, List, drop, IsSome, IsSomeAnd};
ghost use Rattle.fm_model.specs.declared.op.Op.{Op};
ghost use Rattle.left_right.specs.Sides.{view};
ghost use Rattle.pub_pass.specs.Copies.{Copy};
ghost use Rattle.pub_snap.specs.Rule.{EndsWith, Follows, IsAtDesk, MayFollow};

use crossbeam_utils::rule::Outcome;
use fm_base::NoMemory;
use left_right::writer::Writer;
use pub_pass::{Known, Name, Publication, Shown};
use std::mem;
use std::sync::Wait;

// The writer under the rule.
pub(crate) type Board<N> = Writer<Shown, Shown, Known, Publication<N>>;

// Showing the other copy: the writer has seen all that it stands for.
pub struct Publishes;

impl Outcome<Shown, Known> for Publishes {
    ghost use Rattle.std.specs.Prelude.{◌≡◌};

    ghost then = { λ _ _ shown after. after.seen ≡ shown.log };
}

// Shows the next copy, whose log goes on from the one that is shown. It waits until it has done so, and takes no memory
// where there is room for one more copy.
pub(crate) fn show<N: Name, R: Wait>(rt: &R, slot: &mut Option<Board<N>>, next: Shown)
    requires { IsSomeAnd slot.old (λ board. Follows N.book N.proto board.desk.shown.value next) }
    ensures { IsSomeAnd slot.new (λ board.
        (board.desk.shown.value ≡ next) × ((view board.desk.place).seen ≡ next.log)) }
{
    let mut board = slot.take().unwrap();
    append(rt, &mut board, next);
    let board = swap(rt, board);
    match mem::replace(slot, Some(board)) {
        None => {}
        Some(_) => unreachable!(),
    }
}

// Asks for the room of one more copy. The queue of the writer never shrinks, and a swap lets go of what both copies
// have taken in. So what the first turn appends is room once the second has shown its own.
pub(crate) fn make_room<N: Name, R: Wait>(
    rt: &R,
    slot: &mut Option<Board<N>>,
) -> Result<(), NoMemory>
    requires { IsSome slot.old }
    ensures some { IsSome slot.new }
    ensures kept { (log : List Op) (booked : ℕ)
        → IsSomeAnd slot.old (λ board. IsAtDesk N.proto log board.desk.shown.value (view board.desk.place) booked)
        → IsSomeAnd slot.new (λ board. IsAtDesk N.proto log board.desk.shown.value (view board.desk.place) booked) }
{
    catch_up(rt, slot)?;
    catch_up(rt, slot)
}

// Has the other copy hold what readers see, so that what it held can go. It waits for readers that are inside the other
// copy. Out of memory it may be left as it was; readers see the same either way.
pub(crate) fn catch_up<N: Name, R: Wait>(
    rt: &R,
    slot: &mut Option<Board<N>>,
) -> Result<(), NoMemory>
    requires { IsSome slot.old }
    ensures some { IsSome slot.new }
    ensures kept { (log : List Op) (booked : ℕ)
        → IsSomeAnd slot.old (λ board. IsAtDesk N.proto log board.desk.shown.value (view board.desk.place) booked)
        → IsSomeAnd slot.new (λ board. IsAtDesk N.proto log board.desk.shown.value (view board.desk.place) booked) }
{
    let board = slot.take().unwrap();
    let (board, caught) = show_again(rt, board);
    match mem::replace(slot, Some(board)) {
        None => caught,
        Some(_) => unreachable!(),
    }
}

// Shows once more what readers see. It is then in both copies.
fn show_again<N: Name, R: Wait>(rt: &R, board: Board<N>) -> (Board<N>, Result<(), NoMemory>)
    ensures { (log : List Op) (booked : ℕ)
        → IsAtDesk N.proto log board.desk.shown.value (view board.desk.place) booked
        → IsAtDesk N.proto log result.0.desk.shown.value (view result.0.desk.place) booked }
{
    let mut board = board;
    let Ok(same) = board.published().again() else {
        return (board, Err(NoMemory));
    };
    match board.append(same) {
        Ok(()) => (swap(rt, board), Ok(())),
        Err(_) => (board, Err(NoMemory)),
    }
}

// Appends a copy as the last that waits to be shown.
fn append<N: Name, R: Wait>(rt: &R, board: &mut Board<N>, next: Shown)
    ensures desk { board.new.desk ≡ board.old.desk }
    ensures last { EndsWith (drop board.new.behind board.new.log.items) next }
{
    let mut next = next;
    for _ in rt.forever() {
        match board.append(next) {
            Ok(()) => return,
            Err(back) => next = back,
        }
    }
    unreachable!()
}

// Shows the last copy that waits. A swap is refused only where no more owners of an edition can be counted, and is then
// tried again. It waits for readers that are inside the other copy, which are there only while they take a share.
fn swap<N: Name, R: Wait>(rt: &R, board: Board<N>) -> Board<N>
    requires { (next : Copy) × EndsWith (drop board.behind board.log.items) next
        × MayFollow N.book N.proto board.desk.shown.value next }
    ensures { (next : Copy) → EndsWith (drop board.behind board.log.items) next
        → (result.desk.shown.value ≡ next) × ((view result.desk.place).seen ≡ next.log) }
{
    let mut board = board;
    for _ in rt.forever() {
        let (next, swapped) = board.publish_as::<Publishes, R>(rt);
        if swapped.is_ok() {
            return next;
        }
        board = next;
    }
    unreachable!()
}
