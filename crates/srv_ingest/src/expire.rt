//! Letting runs go that get too old.
ghost use Rattle.std.specs.Prelude.{◌≡◌, ◌+◌, ◌≤◌, ◌-ℤ◌, length, neg_ℤ, pos, if◌then◌else◌};
ghost use Rattle.std.specs.Int.{int_max, int_min};
ghost use Rattle.dev_traits.specs.Cause.{one_more};
ghost use Rattle.pub_look.specs.History.{Continues};
ghost use Rattle.srv_verdict.specs.Attempts.{expired_number};
ghost use Rattle.srv_ingest.specs.Expires.{AllSettledWith, is_short_moment};
ghost use Rattle.srv_ingest.specs.Turns.{TakesMoment};
ghost use Rattle.srv_ingest.specs.Verdicts.{cutoff_at};

use crate::moment::judge;
use crate::report::ExpireReport;
use dev_traits::{Clock, Expiry};
use fm_model::{MAX_INSTANT, Site};
use pub_snap::{Desk, Name, Pass, Share};
use srv_verdict::{NOTHING, Seat};
use std::alloc::Global;
use std::sync::{Mutex, Wait};

// A number of seconds, held to the range of instants.
fn to_instant(seconds: i128) -> i64
    ensures { result ≡ int_max (neg_ℤ MAX_INSTANT) (int_min MAX_INSTANT seconds) }
{
    let most = i128::from(MAX_INSTANT);
    if seconds < -most {
        -MAX_INSTANT
    } else if most < seconds {
        MAX_INSTANT
    } else {
        seconds as i64
    }
}

// `moment - keep`, from the collection's epoch.
fn seconds_before(moment: i64, keep: u32, epoch: i64) -> i128
    ensures { result ≡ moment -ℤ pos keep -ℤ epoch }
{
    i128::from(moment) - i128::from(keep) - i128::from(epoch)
}

// The cutoff at a moment, from the collection's epoch.
fn cutoff_at(moment: i64, keep: u32, epoch: i64) -> i64
    ensures { result ≡ cutoff_at moment keep epoch }
{
    to_instant(seconds_before(moment, keep, epoch))
}

// Takes the next moment, finds and tells the verdict on it and settles it. `None` where no moment is left.
#[tactic(auto, using(crate::proofs::MomentLemmas::moment_turns))]
fn take_moment<N: Name, R: Wait, C: Clock>(
    rt: &R,
    alloc: Global,
    seat: &mut Seat<'_, N>,
    clock: &mut C,
    keep: u32,
    site: &Site,
) -> Option<Expiry>
    ensures takes { TakesMoment keep site.now.epoch (C.shown clock.old) (C.shown clock.new)
        seat.old.pass.now seat.new.pass.now seat.old.share.now seat.new.share.now result }
    ensures same { (seat.new.pass.ghost_name ≡ seat.old.pass.ghost_name)
        × (seat.new.share.ghost_name ≡ seat.old.share.ghost_name) }
{
    let moment = clock.next()?;
    let cutoff = cutoff_at(moment, keep, site.epoch);
    let verdict = judge(rt, alloc, seat, clock, cutoff, site.epoch);
    clock.settle(verdict);
    Some(verdict)
}

// The number of moments at which runs went, after this verdict. The share has counted it too, so the sum fits.
fn count_expired<N: Name>(expired: u64, verdict: Expiry, share: &Share<N>) -> u64
    requires { expired + length (expired_number verdict) ≤ share.now }
    ensures { result ≡ expired + length (expired_number verdict) }
{
    match verdict {
        Expiry::Expired(_) => {
            // What it has counted fits its type, and so does the sum.
            let _most = share.count();
            expired + 1
        }
        Expiry::Idle(_) | Expiry::Short => expired,
    }
}

// The number of moments at which memory ran out, after this verdict. It stands still at its greatest number.
#[tactic(auto, unfolding(crate::specs::Expires::is_short_moment))]
fn count_short(short: u64, verdict: Expiry) -> u64
    ensures { result ≡ (if is_short_moment verdict then one_more short else short) }
{
    match verdict {
        Expiry::Short => short.saturating_add(1),
        Expiry::Expired(_) | Expiry::Idle(_) => short,
    }
}

/// Lets all runs go that are more than `keep` seconds old, at each moment of the clock, and returns once the clock has
/// no more. The clock is told the line of a verdict before it. It waits for the clock, for the desk, and for readers
/// that are inside the copy that is changed.
pub fn expire_all<N: Name, R: Wait, C: Clock>(
    rt: &R,
    alloc: Global,
    desk: &Mutex<Desk<N>>,
    pass: &mut Pass<N>,
    clock: &mut C,
    keep: u32,
    site: &Site,
    share: &mut Share<N>,
) -> ExpireReport
    ensures settles { AllSettledWith keep site.now.epoch (C.shown clock.old) (C.shown clock.new)
        pass.old pass.new result }
    ensures counted { share.new ≡ share.old + result.expired }
    ensures later { Continues pass.old.seen pass.new.seen }
    ensures same_proto { pass.new.proto ≡ pass.old.proto }
{
    let mut seat = Seat {
        desk,
        pass,
        share,
        held: NOTHING,
    };
    let mut expired = 0u64;
    let mut short = 0u64;
    for _ in rt.forever() {
        let Some(verdict) = take_moment(rt, alloc, &mut seat, clock, keep, site) else {
            return ExpireReport { expired, short };
        };
        expired = count_expired(expired, verdict, seat.share);
        short = count_short(short, verdict);
    }
    unreachable!()
}
