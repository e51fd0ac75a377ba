//! The lines of verdicts on names.
ghost use Rattle.std.specs.Prelude.{◌≡◌, ◌∷◌, []};
ghost use Rattle.dev_traits.specs.declared.inbox.Verdict.TheVariants as verdicts;
ghost use Rattle.srv_reason.specs.Reason.{parts_of};
ghost use Rattle.srv_ingest.specs.Lines as spec;
ghost use Rattle.srv_ingest.specs.Telling.{TellsInbox};
ghost use Rattle.srv_ingest.specs.Verdicts.{verdict_of};

use crate::file::{Refusal, TOO_LONG};
use dev_traits::{Inbox, Verdict};
use fm_model::Tally;
use itoa::Buffer;
use srv_reason::{Reason, plain, reason_of};

fn note_published<I: Inbox>(inbox: &mut I, name: &[u8], number: u64, held: Tally)
    ensures { TellsInbox (spec.published_line name.now number held ∷ []) (I.shown inbox.old) (I.shown inbox.new) }
{
    let mut revision = Buffer::new();
    let mut files = Buffer::new();
    let mut rows = Buffer::new();
    inbox.note(&[
        b"published ".as_slice(),
        name,
        b" revision ",
        revision.format(number).as_bytes(),
        b" held ",
        files.format(held.files).as_bytes(),
        b" rows ",
        rows.format(held.rows).as_bytes(),
    ]);
}

// Tells a line with a number of operations at its end.
fn note_numbered<I: Inbox>(inbox: &mut I, word: &[u8], name: &[u8], number: u64)
    ensures { TellsInbox (spec.numbered_line word.now name.now number ∷ []) (I.shown inbox.old) (I.shown inbox.new) }
{
    let mut revision = Buffer::new();
    inbox.note(&[
        word,
        name,
        b" revision ",
        revision.format(number).as_bytes(),
    ]);
}

fn note_later<I: Inbox>(inbox: &mut I, name: &[u8])
    ensures { TellsInbox (spec.later_line name.now ∷ []) (I.shown inbox.old) (I.shown inbox.new) }
{
    inbox.note(&[b"later ".as_slice(), name, b" no memory"]);
}

// Tells a refusal by the digits of its code, and the texts of what its reason speaks of.
fn note_texts<I: Inbox>(
    inbox: &mut I,
    name: &[u8],
    digits: &[u8],
    reason: Reason<'_>,
    subject: &[u8],
    object: &[u8],
)
    ensures { TellsInbox (spec.joined (spec.refusal_parts name.now digits.now
        (reason.entry.before.now ∷ subject.now ∷ reason.entry.between.now ∷ object.now ∷ reason.entry.after.now ∷ []))
        ∷ []) (I.shown inbox.old) (I.shown inbox.new) }
{
    inbox.note(&[
        b"refused ".as_slice(),
        name,
        b" code ",
        digits,
        b" ",
        reason.before,
        subject,
        reason.between,
        object,
        reason.after,
    ]);
}

fn note_refused<I: Inbox>(inbox: &mut I, name: &[u8], code: u16, reason: Reason<'_>)
    ensures { TellsInbox (spec.refused_line name.now code (parts_of reason.entry) ∷ []) (I.shown inbox.old)
        (I.shown inbox.new) }
{
    let mut digits = Buffer::new();
    let mut first = Buffer::new();
    let mut second = Buffer::new();
    note_texts(
        inbox,
        name,
        digits.format(code).as_bytes(),
        reason,
        reason.first.text(&mut first),
        reason.second.text(&mut second),
    );
}

/// Tells the verdict on a file of the collection, with what is held after it.
#[tactic(auto, using(crate::proofs::ToldLemmas::told), unfolding(crate::specs::Lines::put_lines))]
pub(crate) fn note_put<I: Inbox>(inbox: &mut I, name: &[u8], held: Tally, verdict: Verdict)
    ensures { TellsInbox (spec.put_lines name.now held verdict) (I.shown inbox.old) (I.shown inbox.new) }
{
    match verdict {
        Verdict::Published(number) => note_published(inbox, name, number, held),
        Verdict::Full(count) => note_numbered(inbox, b"full ", name, count),
        Verdict::Short => note_later(inbox, name),
        Verdict::Refused(_) => {}
        Verdict::NotHeld(_) => {}
        Verdict::Gone => {}
    }
}

/// Tells the verdict on a name that takes a file back.
#[tactic(auto, using(crate::proofs::ToldLemmas::told), unfolding(crate::specs::Lines::back_lines))]
pub(crate) fn note_back<I: Inbox>(inbox: &mut I, name: &[u8], back: &[u8], verdict: Verdict)
    ensures { TellsInbox (spec.back_lines name.now back.now verdict) (I.shown inbox.old) (I.shown inbox.new) }
{
    match verdict {
        Verdict::Published(number) => note_numbered(inbox, b"retracted ", back, number),
        Verdict::NotHeld(count) => note_numbered(inbox, b"not held ", back, count),
        Verdict::Short => note_later(inbox, name),
        Verdict::Refused(_) => {}
        Verdict::Full(_) => {}
        Verdict::Gone => {}
    }
}

/// Tells that memory ran out at a name, and returns that verdict.
pub(crate) fn short<I: Inbox>(inbox: &mut I, name: &[u8]) -> Verdict
    ensures verdict { result ≡ verdicts.Short }
    ensures lines { TellsInbox (spec.later_line name.now ∷ []) (I.shown inbox.old) (I.shown inbox.new) }
{
    note_later(inbox, name);
    Verdict::Short
}

// Tells why there is no file under a name.
#[tactic(auto, using(crate::proofs::ToldLemmas::told), unfolding(crate::specs::Lines::refusal_lines))]
fn note_refusal<I: Inbox>(inbox: &mut I, name: &[u8], refusal: &Refusal)
    ensures { TellsInbox (spec.refusal_lines name.now refusal.now) (I.shown inbox.old) (I.shown inbox.new) }
{
    match refusal {
        Refusal::Absent => {}
        Refusal::TooLong => note_refused(inbox, name, TOO_LONG, plain(b"over 536870912 bytes")),
        Refusal::Fault(fault) => note_refused(inbox, name, fault.code(), reason_of(fault)),
    }
}

/// Tells why there is no file under a name, and returns the verdict.
pub(crate) fn refused<I: Inbox>(inbox: &mut I, name: &[u8], refusal: Refusal) -> Verdict
    ensures verdict { result ≡ verdict_of refusal }
    ensures lines { TellsInbox (spec.refusal_lines name.now refusal) (I.shown inbox.old) (I.shown inbox.new) }
{
    note_refusal(inbox, name, &refusal);
    refusal.verdict()
}
