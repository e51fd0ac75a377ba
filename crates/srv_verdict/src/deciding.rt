//! The verdict on a change.
ghost use Rattle.std.specs.Prelude.{◌≡◌, [], IfSome};
ghost use Rattle.srv_verdict.specs.Attempts.{Decides, HeldAfter, HeldAt, numbers_by, OnlyLearnt, Sees, Tried};

use crate::attempt::{Attempt, try_once};
use crate::change::Change;
use crate::seat::Seat;
use fm_base::NoMemory;
use pub_look::Look;
use pub_snap::{Name, Pass};
use std::alloc::Global;
use std::sync::{MutexGuard, Wait};

// Looks whether nothing is to be done, and returns that verdict. `None` where something is.
fn look_for<N: Name, C: Change>(alloc: Global, pass: &mut Pass<N>, change: &C) -> Option<C::Verdict>
    ensures verdict { IfSome result (C.judges change.now pass.new.seen) }
    ensures sees { Sees pass.old pass.new [] (numbers_by C.look_of result) }
    ensures unpublished { numbers_by C.number_of result ≡ [] }
{
    match pass.ask(alloc, change) {
        Ok((true, count)) => Some(change.when_needless(count)),
        Ok((false, _)) => None,
        Err(NoMemory) => Some(change.when_short()),
    }
}

// Asks the desk of a seat once, under its lock. Where the change is made, the seat says what is held after it.
fn ask_under_lock<N: Name, R: Wait, C: Change>(
    rt: &R,
    alloc: Global,
    seat: &mut Seat<'_, N>,
    change: &C,
) -> Attempt
    requires { C.fits change.now N.proto }
    ensures tried { Tried (C.operation change.now) seat.old.pass.now seat.new.pass.now
        seat.old.share.now seat.new.share.now result }
    ensures held { HeldAt seat.new.pass.now.seen seat.new.held result }
    ensures learnt { OnlyLearnt seat.old.pass.now seat.new.pass.now }
    ensures same { (seat.new.pass.ghost_name ≡ seat.old.pass.ghost_name)
        × (seat.new.share.ghost_name ≡ seat.old.share.ghost_name) }
{
    let desk = seat.desk;
    let mut guard = desk.lock(rt);
    let attempt = try_once(
        rt,
        alloc,
        &mut guard,
        seat.pass,
        seat.share,
        &mut seat.held,
        change,
    );
    MutexGuard::unlock(guard);
    attempt
}

/// Asks the desk of a seat for a change, under its lock, until it is made, or a look shows that nothing is to be done,
/// or memory runs out. The seat then says what is held after the change.
pub fn decide<N: Name, R: Wait, C: Change>(
    rt: &R,
    alloc: Global,
    seat: &mut Seat<'_, N>,
    change: &C,
) -> C::Verdict
    requires { C.fits change.now N.proto }
    ensures verdict { C.judges change.now seat.new.pass.now.seen result }
    ensures decides { Decides seat.old.pass.now seat.new.pass.now seat.old.share.now seat.new.share.now
        (C.number_of result) (C.look_of result) }
    ensures held { HeldAfter seat.new.pass.now.seen seat.new.held (C.number_of result) }
    ensures same { (seat.new.pass.ghost_name ≡ seat.old.pass.ghost_name)
        × (seat.new.share.ghost_name ≡ seat.old.share.ghost_name) }
{
    for _ in rt.forever() {
        match ask_under_lock(rt, alloc, seat, change) {
            Attempt::Done(number) => return change.when_done(number),
            Attempt::Short => return change.when_short(),
            Attempt::Again => {
                if let Some(verdict) = look_for(alloc, seat.pass, change) {
                    return verdict;
                }
            }
        }
    }
    unreachable!()
}
