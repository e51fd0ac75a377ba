//! Events of sessions over one collection, in the order of a row's lines.
ghost use Rattle.std.specs.Prelude.{◌≡◌, All, IfSome};
ghost use Rattle.fm_model.specs.Site.{IsPrototype};
ghost use Rattle.pub_core.specs.Outcome.{EventFits};

use super::collection::{described, loaded};
use super::moments::read_moment;
use super::prototype::prototype_of;
use fm_base::{Arc, Bytes, List, NoMemory};
use fm_model::{Op, Proto};
use pub_core::{Event, Outcome, run_all};
use row_text::{File, Row, Said, bytes};
use std::alloc::Global;

/// Puts the outcome of a row's events over a number of sessions: the number of operations, and for each session its
/// revision and its bytes. `None` where the row is of another form, or memory runs out.
pub fn put_events(
    alloc: Global,
    files: &[File],
    row: &Row<'_>,
    sessions: &str,
    out: &mut Said,
) -> Option<()> {
    if !row.has_only(&["prototype", "sessions", "event"]) {
        return None;
    }
    let proto = prototype_of(alloc, files, row.value("prototype")?)?;
    let outcome = outcome_of(alloc, files, proto, sessions, row)?;
    put_outcome(&outcome, out);
    drop(outcome);
    Some(())
}

// The outcome of the events of a row.
fn outcome_of(
    alloc: Global,
    files: &[File],
    proto: Arc<Proto>,
    sessions: &str,
    row: &Row<'_>,
) -> Option<Outcome>
    requires { IsPrototype proto }
{
    let events = events_of(alloc, files, proto.get(), row)?;
    run_all(alloc, proto, sessions.parse::<u32>().ok()?, &events).ok()
}

// The events of a row.
fn events_of(alloc: Global, files: &[File], proto: &Proto, row: &Row<'_>) -> Option<List<Event>>
    ensures { IfSome result (All (EventFits proto.now)) }
{
    let mut events = List::new(alloc);
    for field in &row.fields {
        if field.key == "event" {
            let event = read_event(alloc, files, proto, field.value.as_str())?;
            push(&mut events, proto, event).ok()?;
        }
    }
    Some(events)
}

fn push(events: &mut List<Event>, _proto: &Proto, event: Event) -> Result<(), NoMemory>
    requires held { All (EventFits _proto.now) events.old }
    requires fits { EventFits _proto.now event }
    ensures { All (EventFits _proto.now) events.new }
{
    events.push(event)
}

// The event of some words.
fn read_event(alloc: Global, files: &[File], proto: &Proto, words: &str) -> Option<Event>
    ensures { IfSome result (EventFits proto.now) }
{
    let (what, rest) = words.split_once(' ')?;
    match what {
        "put" => put(alloc, files, proto, rest),
        "expire" => Some(Event::Publish(Op::Expire(read_moment(rest)?))),
        "retract" => retract(alloc, proto, rest),
        _ => session_event(alloc, proto, what, rest),
    }
}

// The put of the file that words describe under the name of the first.
fn put(alloc: Global, files: &[File], proto: &Proto, words: &str) -> Option<Event>
    ensures { IfSome result (EventFits proto.now) }
{
    let (name, words) = words.split_once(' ')?;
    let file = loaded(
        alloc,
        name.as_bytes(),
        described(alloc, files, words)?,
        proto,
    )?;
    Some(Event::Publish(Op::Put(file)))
}

fn retract(alloc: Global, _proto: &Proto, name: &str) -> Option<Event>
    ensures { IfSome result (EventFits _proto.now) }
{
    let name = Bytes::copy_of(alloc, name.as_bytes()).ok()?;
    Some(Event::Publish(Op::Retract(name)))
}

// An event of the session of a number.
fn session_event(alloc: Global, _proto: &Proto, what: &str, words: &str) -> Option<Event>
    ensures { IfSome result (EventFits _proto.now) }
{
    let (session, rest) = words.split_once(' ').unwrap_or((words, ""));
    let session = session.parse::<u32>().ok()?;
    match what {
        "look" => Some(Event::Look(session)),
        "learn" => Some(Event::Learn(session, rest.parse::<u64>().ok()?)),
        "bytes" => Some(Event::Bytes(session, fed(alloc, rest)?)),
        "sent" => Some(Event::Sent(session, rest.parse::<u64>().ok()?)),
        "end" => Some(Event::End(session)),
        "fault" => Some(Event::Fault(session)),
        _ => None,
    }
}

// The bytes that a text stands for.
fn fed(alloc: Global, text: &str) -> Option<Bytes> {
    let items = bytes(alloc, text).ok()??;
    Some(Bytes { items })
}

fn put_outcome(outcome: &Outcome, out: &mut Said) {
    out.put_number("operations ", outcome.log.len());
    for (session, output) in outcome.outputs.as_slice().iter().enumerate() {
        let seen = outcome.seen.as_slice().get(session).copied().unwrap_or(0);
        put_session(session, seen, output.as_slice(), out);
    }
}

fn put_session(session: usize, seen: u64, output: &[u8], out: &mut Said) {
    out.put_number("\nsession ", session);
    out.put_number(" has seen ", seen);
    out.put_number(", and was sent ", output.len());
    out.put(" bytes\n");
    out.put_shown(output);
    end(out);
}

// Takes the last line end of a text away, or puts a mark where it has none.
fn end(out: &mut Said) {
    if out.as_str().ends_with('\n') {
        out.pop();
    } else {
        out.put(" (no line end)");
    }
}
