//! The lines of what was served of several collections.
ghost use Rattle.std.specs.Prelude.{◌≡◌, ◌++◌, ◌<◌, ◌^◌, codes, length, slice_get};
ghost use Rattle.std.specs.List.{flat_map};
ghost use Rattle.dev_traits.specs.Cause.{HasCause};
ghost use Rattle.srv_alone.specs.Report.{Appends};
ghost use Rattle.srv_workers.specs.Several as several;
ghost use Rattle.srv_closing.specs.Closing.{EndsWith, first_end_of};
ghost use Rattle.srv_closing.specs.Lines as spec;

use crate::closing::{first_end, put_counts};
use dev_traits::{Failed, Sink};
use pub_snap::Closed;
use srv_alone::{End, put_pieces, report};
use srv_ingest::{ExpireReport, IngestReport};
use srv_words::Spec;
use srv_workers::Outcomes;

// How often runs went at the clock of this number, if there is one.
fn expired_at(clocks: &[ExpireReport], number: usize) -> u64
    ensures { result ≡ several.gone_by (slice_get clocks.now number) }
{
    match clocks.get(number) {
        Some(report) => report.expired,
        None => 0,
    }
}

// Writes the name of a collection, and a blank. It takes no memory.
fn put_name<S: Sink>(sink: &mut S, name: &[u8]) -> Result<(), Failed>
    ensures put { Appends (name.now ++ codes " ") (S.shown sink.old).held (S.shown sink.new).held result }
    ensures cause { HasCause (S.shown sink.old).faults (S.shown sink.new).faults result }
{
    put_pieces(sink, &[name, b" ".as_slice()])
}

// Writes the name of a collection, and what was served of it. It takes no memory.
#[tactic(auto, using(srv_alone::proofs::PieceLemmas::texts), unfolding(crate::specs::Lines::collection_line))]
fn put_collection<S: Sink>(
    sink: &mut S,
    name: &[u8],
    taken: &IngestReport,
    expired: u64,
    closed: &Closed,
) -> Result<(), Failed>
    ensures put { Appends (spec.collection_line (record
        { name = name.now; taken = taken.now; expired = expired; closed = closed.now }))
        (S.shown sink.old).held (S.shown sink.new).held result }
    ensures cause { HasCause (S.shown sink.old).faults (S.shown sink.new).faults result }
{
    put_name(sink, name)?;
    put_counts(
        sink,
        taken.published,
        taken.retracted,
        expired,
        closed.tally,
        closed.revision,
    )
}

// Writes the line of each collection, in order. It takes no memory.
fn put_collections<S: Sink>(
    sink: &mut S,
    specs: &[Spec],
    inboxes: &[IngestReport],
    clocks: &[ExpireReport],
    desks: &[Closed],
) -> Result<(), Failed>
    requires inboxes { length inboxes.now ≡ length specs.now }
    requires desks { length desks.now ≡ length specs.now }
    ensures put { Appends (flat_map (λ served. spec.collection_line served)
        (spec.served_from 0 specs.now inboxes.now clocks.now desks.now))
        (S.shown sink.old).held (S.shown sink.new).held result }
    ensures cause { HasCause (S.shown sink.old).faults (S.shown sink.new).faults result }
{
    for number in 0..specs.len() {
        put_collection(
            sink,
            specs[number].site.name.as_slice(),
            &inboxes[number],
            expired_at(clocks, number),
            &desks[number],
        )?;
    }
    Ok(())
}

/// Writes the lines of what was served, or how the run ended at its first worker that didn't end well.
pub fn close_many<S: Sink>(sink: &mut S, specs: &[Spec], outcomes: &Outcomes) -> End
    requires doors { length outcomes.now.doors < 2 ^ 32 }
    requires inboxes { length outcomes.now.inboxes < 2 ^ 32 }
    requires clocks { length outcomes.now.clocks < 2 ^ 32 }
    requires each { length outcomes.now.inboxes ≡ length specs.now }
    requires desks { length outcomes.now.desks ≡ length specs.now }
    ensures { EndsWith (spec.many_lines specs.now outcomes.now)
        (first_end_of outcomes.now.doors outcomes.now.inboxes outcomes.now.clocks) result
        (S.shown sink.old) (S.shown sink.new) }
{
    let doors = outcomes.doors.as_slice();
    let inboxes = outcomes.inboxes.as_slice();
    let clocks = outcomes.clocks.as_slice();
    if let Some(end) = first_end(doors, inboxes, clocks) {
        report(sink, end, b"");
        return end;
    }
    match put_collections(sink, specs, inboxes, clocks, outcomes.desks.as_slice()) {
        Ok(()) => End::Done,
        Err(_failed) => End::SinkFault,
    }
}
