//! The verdict on a moment, and its line.
ghost use Rattle.std.specs.Prelude.{◌≡◌, ◌+ℤ◌, ◌∷◌, [], IfOk};
ghost use Rattle.nc_model.specs.Instant.{HasFourDigitYear, instant_text_of};
ghost use Rattle.srv_verdict.specs.Attempts.{Decides, expired_number, idle_number};
ghost use Rattle.srv_ingest.specs.Lines as spec;
ghost use Rattle.srv_ingest.specs.Telling.{TellsClock};
ghost use Rattle.srv_verdict.specs.Verdicts.{IsExpiry};

use dev_traits::{Clock, Expiry};
use fm_base::{Bytes, List, NoMemory};
use itoa::Buffer;
use pub_snap::Name;
use srv_verdict::{Expiring, Seat, decide};
use std::alloc::Global;
use std::sync::Wait;
use tm_units::instant_text;

// The first and the last instant whose years have four digits.
const FIRST: i128 = -62_167_219_200;

const LAST: i128 = 253_402_300_799;

// Whether the year of an instant has four digits.
#[tactic(auto, unfolding(crate::specs::Lines::has_four_digits))]
fn has_four_digits(t: i128) -> bool
    ensures { result ≡ spec.has_four_digits t }
{
    FIRST <= t && t <= LAST
}

// The text of an instant whose year has four digits.
fn written_instant(alloc: Global, t: i64) -> Result<Bytes, NoMemory>
    requires { HasFourDigitYear t }
    ensures { IfOk result (λ text. text ≡ instant_text_of t) }
{
    let mut text = List::new(alloc);
    instant_text(alloc, t, &mut text)?;
    Ok(text)
}

// The text of an instant.
#[tactic(auto, unfolding(crate::specs::Lines::shown_instant))]
fn shown_instant(alloc: Global, t: i128) -> Result<Bytes, NoMemory>
    ensures { IfOk result (λ text. text ≡ spec.shown_instant t) }
{
    if !has_four_digits(t) {
        return Bytes::copy_of(alloc, b"a year without four digits");
    }
    written_instant(alloc, t as i64)
}

// The instant at these seconds from the epoch.
fn instant_at(cutoff: i64, epoch: i64) -> i128
    ensures { result ≡ cutoff +ℤ epoch }
{
    i128::from(cutoff) + i128::from(epoch)
}

// Tells that runs before an instant went.
fn note_expired<C: Clock>(clock: &mut C, instant: &[u8], number: u64)
    ensures { TellsClock (spec.expired_line instant.now number ∷ []) (C.shown clock.old) (C.shown clock.new) }
{
    let mut revision = Buffer::new();
    clock.note(&[
        b"expired before ".as_slice(),
        instant,
        b" revision ",
        revision.format(number).as_bytes(),
    ]);
}

// Tells the verdict on a moment. Where nothing was to be done there is nothing to tell.
#[tactic(auto, using(crate::proofs::ToldLemmas::told), unfolding(crate::specs::Lines::expiry_lines))]
fn note_expiry<C: Clock>(clock: &mut C, instant: &[u8], verdict: Expiry)
    ensures { TellsClock (spec.expiry_lines instant.now verdict) (C.shown clock.old) (C.shown clock.new) }
{
    match verdict {
        Expiry::Expired(number) => note_expired(clock, instant, number),
        Expiry::Idle(_) => {}
        Expiry::Short => clock.note(&[b"expired nothing, no memory".as_slice()]),
    }
}

/// Finds the verdict on a moment with this cutoff, in seconds from the epoch, and tells it. The text of the instant is
/// made before, so that nothing is let go without a line.
#[tactic(auto, unfolding(crate::specs::Lines::expiry_lines))]
pub(crate) fn judge<N: Name, R: Wait, C: Clock>(
    rt: &R,
    alloc: Global,
    seat: &mut Seat<'_, N>,
    clock: &mut C,
    cutoff: i64,
    epoch: i64,
) -> Expiry
    ensures is { IsExpiry seat.new.pass.now.seen cutoff result }
    ensures decides { Decides seat.old.pass.now seat.new.pass.now seat.old.share.now seat.new.share.now
        (expired_number result) (idle_number result) }
    ensures lines { TellsClock (spec.expiry_lines (spec.shown_instant (cutoff +ℤ epoch)) result)
        (C.shown clock.old) (C.shown clock.new) }
    ensures same { (seat.new.pass.ghost_name ≡ seat.old.pass.ghost_name)
        × (seat.new.share.ghost_name ≡ seat.old.share.ghost_name) }
{
    let Ok(instant) = shown_instant(alloc, instant_at(cutoff, epoch)) else {
        note_expiry(clock, b"", Expiry::Short);
        return Expiry::Short;
    };
    let verdict = decide(rt, alloc, seat, &Expiring { cutoff });
    note_expiry(clock, instant.as_slice(), verdict);
    verdict
}
