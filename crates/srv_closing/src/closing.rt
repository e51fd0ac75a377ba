//! The end of a run of `serve` by its workers' reports, and its line.
ghost use Rattle.std.specs.Prelude.{◌≡◌, ◌<◌, ◌^◌, ◌++◌, ℕ, Option as Optional, length, sum_by};
ghost use Rattle.srv_workers.specs.Runs.{told_of};
ghost use Rattle.dev_traits.specs.Cause.{HasCause};
ghost use Rattle.srv_alone.specs.declared.end.End.{End as EndOf};
ghost use Rattle.srv_closing.specs.Closing as spec;
ghost use Rattle.srv_alone.specs.Report.{Appends};

use dev_traits::{Failed, Sink};
use fm_model::Tally;
use itoa::Buffer;
use srv_alone::{End, put_pieces, report};
use srv_door::{DoorEnd, DoorReport};
use srv_ingest::{ExpireReport, IngestEnd, IngestReport};
use srv_workers::Outcome;

// The end of a run where memory ran out at least once.
fn short_end(short: u64) -> Option<End>
    ensures { result ≡ spec.short_end short }
{
    if short > 0 { Some(End::NoMemory) } else { None }
}

// A worker's report, at which a run may end.
trait Reported {
    ghost ends: { ℕ → Self → Optional EndOf };

    // The end of a run at the device of this number.
    fn end_at(&self, number: u32) -> Option<End>
        ensures { result ≡ ends number self.now };
}

impl Reported for DoorReport {
    ghost ends = { spec.door_end };

    fn end_at(&self, number: u32) -> Option<End> {
        match self.end {
            DoorEnd::DoorFault => Some(End::DoorFault(number)),
            DoorEnd::Closed => short_end(self.short),
        }
    }
}

impl Reported for IngestReport {
    ghost ends = { spec.inbox_end };

    fn end_at(&self, number: u32) -> Option<End> {
        match self.end {
            IngestEnd::InboxFault => Some(End::InboxFault(number)),
            IngestEnd::NoMemory => Some(End::NoMemory),
            IngestEnd::Done => short_end(self.short),
        }
    }
}

impl Reported for ExpireReport {
    ghost ends = { spec.clock_end };

    fn end_at(&self, _number: u32) -> Option<End> {
        short_end(self.short)
    }
}

// The first end at devices of a kind.
#[tactic(auto, using(crate::proofs::ClosingLemmas::ends))]
fn first_at<R: Reported>(reports: &[R]) -> Option<End>
    requires { length reports.now < 2 ^ 32 }
    ensures { result ≡ spec.first_from R.ends 0 reports.now }
{
    for number in 0..reports.len() {
        let end = reports[number].end_at(number as u32);
        if end.is_some() {
            return end;
        }
    }
    None
}

// The first end of a run at the doors, the inboxes and the clocks that these reports are of.
pub(crate) fn first_end(
    doors: &[DoorReport],
    inboxes: &[IngestReport],
    clocks: &[ExpireReport],
) -> Option<End>
    requires doors { length doors.now < 2 ^ 32 }
    requires inboxes { length inboxes.now < 2 ^ 32 }
    requires clocks { length clocks.now < 2 ^ 32 }
    ensures { result ≡ spec.first_end_of doors.now inboxes.now clocks.now }
{
    first_at(doors).or(first_at(inboxes)).or(first_at(clocks))
}

// How many files came, and how many were taken back.
#[tactic(auto, using(crate::proofs::ClosingLemmas::sums))]
fn taken_in(reports: &[IngestReport]) -> (u64, u64)
    requires published { sum_by (λ (report : _). report.published) reports.now < 2 ^ 64 }
    requires retracted { sum_by (λ (report : _). report.retracted) reports.now < 2 ^ 64 }
    ensures published { result.0 ≡ sum_by (λ (report : _). report.published) reports.now }
    ensures retracted { result.1 ≡ sum_by (λ (report : _). report.retracted) reports.now }
{
    let mut published = 0;
    let mut retracted = 0;
    for number in 0..reports.len() {
        published += reports[number].published;
        retracted += reports[number].retracted;
    }
    (published, retracted)
}

// The number of times that runs went.
#[tactic(auto, using(crate::proofs::ClosingLemmas::sums))]
fn expired(reports: &[ExpireReport]) -> u64
    requires { sum_by (λ (report : _). report.expired) reports.now < 2 ^ 64 }
    ensures { result ≡ sum_by (λ (report : _). report.expired) reports.now }
{
    let mut sum = 0;
    for number in 0..reports.len() {
        sum += reports[number].expired;
    }
    sum
}

// Writes the numbers of files that came and were taken back, and of times that runs went. It takes no memory.
#[tactic(auto, unfolding(crate::specs::Closing::changes_text, srv_alone::specs::Load::field))]
fn put_changes<S: Sink>(
    sink: &mut S,
    published: u64,
    retracted: u64,
    expired: u64,
) -> Result<(), Failed>
    ensures put { Appends (spec.changes_text published retracted expired)
        (S.shown sink.old).held (S.shown sink.new).held result }
    ensures cause { HasCause (S.shown sink.old).faults (S.shown sink.new).faults result }
{
    let mut came = Buffer::new();
    let mut back = Buffer::new();
    let mut went = Buffer::new();
    put_pieces(
        sink,
        &[
            b"published ".as_slice(),
            came.format(published).as_bytes(),
            b" retracted ".as_slice(),
            back.format(retracted).as_bytes(),
            b" expired ".as_slice(),
            went.format(expired).as_bytes(),
        ],
    )
}

// Writes the numbers of files and times held at the end and of operations published, and the end of the line. It takes
// no memory.
#[tactic(auto, unfolding(crate::specs::Closing::left_text, srv_alone::specs::Load::field))]
fn put_left<S: Sink>(sink: &mut S, tally: Tally, revision: u64) -> Result<(), Failed>
    ensures put { Appends (spec.left_text tally revision) (S.shown sink.old).held (S.shown sink.new).held result }
    ensures cause { HasCause (S.shown sink.old).faults (S.shown sink.new).faults result }
{
    let mut files = Buffer::new();
    let mut rows = Buffer::new();
    let mut count = Buffer::new();
    put_pieces(
        sink,
        &[
            b" held ".as_slice(),
            files.format(tally.files).as_bytes(),
            b" rows ".as_slice(),
            rows.format(tally.rows).as_bytes(),
            b" revision ".as_slice(),
            count.format(revision).as_bytes(),
            b"\n".as_slice(),
        ],
    )
}

// Writes the counts of a run and the end of the line. It takes no memory.
#[tactic(auto, using(srv_alone::proofs::PieceLemmas::texts))]
pub(crate) fn put_counts<S: Sink>(
    sink: &mut S,
    published: u64,
    retracted: u64,
    expired: u64,
    tally: Tally,
    revision: u64,
) -> Result<(), Failed>
    ensures put { Appends (spec.changes_text published retracted expired ++ spec.left_text tally revision)
        (S.shown sink.old).held (S.shown sink.new).held result }
    ensures cause { HasCause (S.shown sink.old).faults (S.shown sink.new).faults result }
{
    put_changes(sink, published, retracted, expired)?;
    put_left(sink, tally, revision)
}

// Writes the line of what was served.
fn put_served<S: Sink>(sink: &mut S, outcome: &Outcome) -> Result<(), Failed>
    requires { told_of outcome.now < 2 ^ 64 }
    ensures put { Appends (spec.serve_line outcome.now) (S.shown sink.old).held (S.shown sink.new).held result }
    ensures cause { HasCause (S.shown sink.old).faults (S.shown sink.new).faults result }
{
    let (published, retracted) = taken_in(outcome.inboxes.as_slice());
    let expired = expired(outcome.clocks.as_slice());
    put_counts(
        sink,
        published,
        retracted,
        expired,
        outcome.tally,
        outcome.revision,
    )
}

/// Writes what was served, or how the run ended at its first worker that didn't end well.
pub fn close<S: Sink>(sink: &mut S, outcome: &Outcome) -> End
    requires doors { length outcome.now.doors < 2 ^ 32 }
    requires inboxes { length outcome.now.inboxes < 2 ^ 32 }
    requires clocks { length outcome.now.clocks < 2 ^ 32 }
    requires told { told_of outcome.now < 2 ^ 64 }
    ensures { spec.EndsServing outcome.now (spec.first_end outcome.now) result (S.shown sink.old) (S.shown sink.new) }
{
    let doors = outcome.doors.as_slice();
    let inboxes = outcome.inboxes.as_slice();
    let clocks = outcome.clocks.as_slice();
    if let Some(end) = first_end(doors, inboxes, clocks) {
        report(sink, end, b"");
        return end;
    }
    match put_served(sink, outcome) {
        Ok(()) => End::Done,
        Err(_failed) => End::SinkFault,
    }
}
