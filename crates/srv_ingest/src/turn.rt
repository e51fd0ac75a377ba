//! The turn of one name.
ghost use Rattle.std.specs.Prelude.{◌≡◌, ◌+◌, ◌≤◌};
ghost use Rattle.srv_ingest.specs.Turns.{FindsVerdict, NextName, TakesNext, operations};

use crate::file::{file_of, taken_back};
use crate::lines::{note_back, note_put, refused, short};
use crate::report::{IngestEnd, IngestReport, count_published, count_settled};
use dev_traits::{Arrival, Failed, Inbox, Verdict};
use fm_base::{Arc, Bytes, Fail};
use fm_model::{MAX_FILE_BYTES, Proto};
use pub_snap::Name;
use srv_verdict::{Putting, Retracting, Seat, decide};
use std::alloc::Global;
use std::sync::Wait;

// The verdict on a name that arrived, and its line: its file comes to the collection, or the file that it names is
// taken back. An `Err` says that the inbox failed before there was a verdict.
fn verdict_on<N: Name, R: Wait, I: Inbox>(
    rt: &R,
    alloc: Global,
    seat: &mut Seat<'_, N>,
    inbox: &mut I,
    proto: &Arc<Proto>,
    name: &[u8],
) -> Result<Verdict, Failed>
    requires { proto.now ≡ N.proto }
    ensures finds { FindsVerdict proto.now name.now (I.shown inbox.old) (I.shown inbox.new)
        seat.old.pass.now seat.new.pass.now seat.old.share.now seat.new.share.now result }
    ensures same { (seat.new.pass.ghost_name ≡ seat.old.pass.ghost_name)
        × (seat.new.share.ghost_name ≡ seat.old.share.ghost_name) }
{
    if let Some(back) = taken_back(name) {
        let verdict = decide(rt, alloc, seat, &Retracting { name: back });
        note_back(inbox, name, back, verdict);
        return Ok(verdict);
    }
    let found = match inbox.fetch(alloc, name, MAX_FILE_BYTES) {
        Ok(found) => found,
        Err(Fail::NoMemory) => return Ok(short(inbox, name)),
        Err(Fail::Fault(failed)) => return Err(failed),
    };
    match file_of(alloc, name, found, proto.get()) {
        Ok(file) => {
            let verdict = decide(rt, alloc, seat, &Putting { file });
            note_put(inbox, name, seat.held, verdict);
            Ok(verdict)
        }
        Err(Fail::NoMemory) => Ok(short(inbox, name)),
        Err(Fail::Fault(refusal)) => Ok(refused(inbox, name, refusal)),
    }
}

// The next name that arrives, or why there is none.
#[tactic(auto, unfolding(crate::specs::Ingests::EndsIngest), using(crate::proofs::NextLemmas::nexts))]
fn next_name<R: Wait, I: Inbox>(rt: &R, alloc: Global, inbox: &mut I) -> Result<Bytes, IngestEnd>
    ensures { NextName (I.shown inbox.old) (I.shown inbox.new) result }
{
    for _ in rt.forever() {
        match inbox.next(alloc) {
            Ok(Arrival::Name(name)) => return Ok(name),
            Ok(Arrival::Idle) => {}
            Ok(Arrival::Done) => return Err(IngestEnd::Done),
            Err(Fail::NoMemory) => return Err(IngestEnd::NoMemory),
            Err(Fail::Fault(_)) => return Err(IngestEnd::InboxFault),
        }
    }
    unreachable!()
}

/// Takes the next name, finds and tells the verdict on it, and settles it. Returns why taking in stops, where it does.
#[tactic(auto, using(crate::proofs::TurnLemmas::turns))]
pub(crate) fn take_next<N: Name, R: Wait, I: Inbox>(
    rt: &R,
    alloc: Global,
    seat: &mut Seat<'_, N>,
    inbox: &mut I,
    proto: &Arc<Proto>,
    report: &mut IngestReport,
) -> Option<IngestEnd>
    requires proto { proto.now ≡ N.proto }
    requires fits { operations report.old ≤ seat.old.share.now }
    ensures takes { TakesNext proto.now (I.shown inbox.old) (I.shown inbox.new)
        seat.old.pass.now seat.new.pass.now report.old report.new result }
    ensures counted { seat.new.share.now + operations report.old ≡ seat.old.share.now + operations report.new }
    ensures same { (seat.new.pass.ghost_name ≡ seat.old.pass.ghost_name)
        × (seat.new.share.ghost_name ≡ seat.old.share.ghost_name) }
{
    let name = match next_name(rt, alloc, inbox) {
        Ok(name) => name,
        Err(end) => return Some(end),
    };
    let name = name.as_slice();
    let Ok(verdict) = verdict_on(rt, alloc, seat, inbox, proto, name) else {
        return Some(IngestEnd::InboxFault);
    };
    count_published(report, name, verdict, seat.share);
    match inbox.settle(name, verdict) {
        Ok(()) => {
            count_settled(report, verdict);
            None
        }
        Err(_) => Some(IngestEnd::InboxFault),
    }
}
