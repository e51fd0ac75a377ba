//! An attempt to publish at a desk.
ghost use Rattle.std.specs.Prelude.{◌≡◌, length};
ghost use Rattle.pub_look.specs.History.{Continues};
ghost use Rattle.pub_pass.specs.Copies.{longer};
ghost use Rattle.srv_verdict.specs.Attempts.{HeldAt, OnlyLearnt, Tried};

use crate::change::Change;
use fm_model::Tally;
use pub_look::Look;
use pub_snap::{Desk, Name, Pass, Share};
use std::alloc::Global;
use std::sync::Wait;

/// The outcome of an attempt to publish an operation.
#[derive(Clone, Copy)]
pub(crate) enum Attempt {
    /// The operation was published, and has this number.
    Done(u64),
    /// The desk turned it down, or didn't have all yet that the pass has seen.
    Again,
    /// Memory ran out.
    Short,
}

/// Asks a desk for a change, once it has all that the pass has seen. Then `held` is what is held after the change.
#[tactic(auto, using(crate::proofs::AttemptLemmas::attempts, crate::proofs::HeldLemmas::helds))]
pub(crate) fn try_once<N: Name, R: Wait, C: Change>(
    rt: &R,
    alloc: Global,
    desk: &mut Desk<N>,
    pass: &mut Pass<N>,
    share: &mut Share<N>,
    held: &mut Tally,
    change: &C,
) -> Attempt
    requires { C.fits change.now N.proto }
    ensures tried { Tried (C.operation change.now) pass.old pass.new share.old share.new result }
    ensures held { HeldAt pass.new.seen held.new result }
    ensures learnt { OnlyLearnt pass.old pass.new }
{
    if desk.revision() < pass.seen() {
        return Attempt::Again;
    }
    match change.ask_desk(rt, alloc, desk, share) {
        Ok(true) => {
            *held = desk.tally();
            learn(pass, desk)
        }
        Ok(false) => Attempt::Again,
        Err(_) => Attempt::Short,
    }
}

// Learns the log of a desk, which ends with an operation that was just published.
fn learn<N: Name>(pass: &mut Pass<N>, desk: &Desk<N>) -> Attempt
    ensures done { result ≡ Attempt.Done (length desk.now) }
    ensures learnt { pass.new
        ≡ record { proto = pass.old.proto; seen = longer pass.old.seen desk.now; looks = pass.old.looks } }
    ensures own { Continues pass.old.seen pass.new.seen }
{
    let receipt = desk.receipt();
    pass.learn(&receipt);
    Attempt::Done(receipt.revision())
}
