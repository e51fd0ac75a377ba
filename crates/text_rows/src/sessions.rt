//! Sessions: what they do over whole input, and at each of some events.

use super::bytes_at;
use super::heads::put_request;
use fm_base::NoMemory;
use row_text::{Field, Row, Said};
use std::alloc::{AllocError, Global};
use web_session::{Action, Asked, End, Event, Session};

/// Puts what a session does over some input, a line for each action. Each reply has 5 bytes, of which at most 2 are
/// sent at a time. Reads are left out: the input comes whole.
pub fn put_input(alloc: Global, input: &[u8], out: &mut Said) {
    match Session::new(alloc) {
        Ok(mut session) => {
            put_session(&mut session, input, out);
            drop(session);
        }
        Err(NoMemory) => out.run_short(),
    }
}

// The same of a session that has not begun.
fn put_session(session: &mut Session, input: &[u8], out: &mut Said) {
    let mut left = input;
    let mut action = session.on(Event::Start);
    for _ in 0..1_000_000u32 {
        if let Action::Read(room) = action {
            let (piece, rest) = left.split_at(room.min(left.len()));
            left = rest;
            action = after_read(session, piece);
        } else {
            put_action(session, action, out);
            if matches!(action, Action::Close(_)) {
                break;
            }
            action = after(session, action);
        }
    }
}

// What a session does once it has read some bytes, or the end of its input.
fn after_read(session: &mut Session, piece: &[u8]) -> Action {
    if piece.is_empty() {
        session.on(Event::EndOfInput)
    } else {
        session.on(Event::Bytes(piece))
    }
}

// The action of a session after one that is no read.
fn after(session: &mut Session, action: Action) -> Action {
    match action {
        Action::Ask(_) => session.on(Event::Answer { len: 5 }),
        Action::Send { from: 4 } => session.on(Event::Sent(1)),
        Action::Send { .. } => session.on(Event::Sent(2)),
        done => done,
    }
}

/// Puts what a session does at each of some events, a line for each, after requests that were answered before. It is
/// false where one of them isn't known.
pub fn put_events(alloc: Global, row: &Row<'_>, out: &mut Said) -> bool {
    if !row.has_only(&["answered", "on", "on file"]) {
        return false;
    }
    match Session::new(alloc) {
        Ok(mut session) => {
            let known = put_fields(alloc, &mut session, row, out);
            drop(session);
            known
        }
        Err(NoMemory) => {
            out.run_short();
            true
        }
    }
}

fn put_fields(alloc: Global, session: &mut Session, row: &Row<'_>, out: &mut Said) -> bool {
    for field in &row.fields {
        if !put_field(alloc, session, field, out) {
            return false;
        }
    }
    true
}

// Does what a field says, and appends what the session does then; false where that isn't known.
fn put_field(alloc: Global, session: &mut Session, field: &Field<'_>, out: &mut Said) -> bool {
    let value = field.value.as_str();
    match field.key {
        "answered" => answer(session, value),
        "on" | "on file" => put_after(alloc, session, field.key, value, out),
        _ => true,
    }
}

// Requests, each of which is answered by one byte; false where the text is no number.
fn answer(session: &mut Session, count: &str) -> bool {
    let Ok(count) = count.parse::<u32>() else {
        return false;
    };
    for _ in 0..count {
        session.on(Event::Bytes(b"GET / HTTP/1.1\r\n\r\n"));
        session.on(Event::Answer { len: 1 });
        session.on(Event::Sent(1));
    }
    true
}

// Appends what a session does at the event of a line, or with the bytes that a line describes; false where it is none.
fn put_after(alloc: Global, session: &mut Session, key: &str, value: &str, out: &mut Said) -> bool {
    let (name, value) = match key {
        "on" => value.split_once(' ').unwrap_or((value, "")),
        _ => ("bytes", value),
    };
    match bytes_at(alloc, key, value) {
        Ok(Some(bytes)) => put_on(session, event_of(name, value, bytes.as_slice()), out),
        Ok(None) => false,
        Err(AllocError) => {
            out.run_short();
            true
        }
    }
}

// Appends what a session does at an event; false where there is none.
fn put_on(session: &mut Session, event: Option<Event<'_>>, out: &mut Said) -> bool {
    let Some(event) = event else {
        return false;
    };
    let action = session.on(event);
    put_action(session, action, out);
    true
}

fn event_of<'a>(name: &str, value: &str, bytes: &'a [u8]) -> Option<Event<'a>> {
    match name {
        "start" if value.is_empty() => Some(Event::Start),
        "end" if value.is_empty() => Some(Event::EndOfInput),
        "no-answer" if value.is_empty() => Some(Event::NoAnswer),
        "fault" if value.is_empty() => Some(Event::Fault),
        "bytes" => Some(Event::Bytes(bytes)),
        "answer" => Some(Event::Answer {
            len: value.parse::<u64>().ok()?,
        }),
        "sent" => Some(Event::Sent(value.parse::<u64>().ok()?)),
        _ => None,
    }
}

// Appends an action as a line. A request has its target, and says whether the link ends after its reply.
fn put_action(session: &Session, action: Action, out: &mut Said) {
    out.begin_line();
    match action {
        Action::Read(room) => out.put_number("read ", room),
        Action::Ask(asked) => put_asked(session, asked, out),
        Action::Send { from } => out.put_number("send from ", from),
        Action::Close(end) => put_end(end, out),
    }
}

fn put_asked(session: &Session, asked: Asked, out: &mut Said) {
    out.put("ask ");
    match asked {
        Asked::Head(request) => put_request(request, session.target(), out),
        Asked::BadHead => out.put("bad head"),
        Asked::HeadTooLong => out.put("head too long"),
    }
    out.put(if session.last() { ", the last" } else { "" });
}

fn put_end(end: End, out: &mut Said) {
    out.put("close: ");
    match end {
        End::Cut(begun) => out.put_number("cut after ", begun),
        other => out.put(end_name(other)),
    }
}

fn end_name(end: End) -> &'static str {
    match end {
        End::Closed => "closed",
        End::Cut(_) => "cut",
        End::Asked => "asked",
        End::BadHead => "bad head",
        End::HeadTooLong => "head too long",
        End::BodyNotTaken => "body not taken",
        End::RequestLimit => "request limit",
        End::LinkFault => "link fault",
        End::NoMemory => "no memory",
    }
}
