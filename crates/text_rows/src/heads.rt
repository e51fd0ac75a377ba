//! Request heads: one, and those of a stream.

use super::bytes_at;
use fm_base::NoMemory;
use row_text::{Field, Row, Said};
use std::alloc::{AllocError, Global};
use web_frame::{Frame, Method, Next, Request};

/// Puts the item that a head is read as, and whether more than that is.
pub fn put_head(alloc: Global, head: &[u8], out: &mut Said) {
    match Frame::new(alloc) {
        Ok(mut frame) => {
            put_read(&mut frame, head, out);
            drop(frame);
        }
        Err(NoMemory) => out.run_short(),
    }
}

fn put_read(frame: &mut Frame, head: &[u8], out: &mut Said) {
    frame.feed(head);
    let read = frame.next();
    put_next(frame, read, out);
    if frame.next() != Next::Need {
        out.put(", and more");
    }
}

/// Puts the heads of a stream, a line for each. Its slices are fed one after the other, and all heads of one are read
/// before the next comes. It is false where a slice isn't known.
pub fn put_stream(alloc: Global, row: &Row<'_>, out: &mut Said) -> bool {
    if !row.has_only(&["feed", "feed file"]) {
        return false;
    }
    match Frame::new(alloc) {
        Ok(mut frame) => {
            let known = put_slices(alloc, &mut frame, row, out);
            drop(frame);
            known
        }
        Err(NoMemory) => {
            out.run_short();
            true
        }
    }
}

fn put_slices(alloc: Global, frame: &mut Frame, row: &Row<'_>, out: &mut Said) -> bool {
    for field in &row.fields {
        if field.key.starts_with("feed") && !put_slice(alloc, frame, field, out) {
            return false;
        }
    }
    true
}

// Feeds the bytes of a field, and appends the heads that end in them; false where it stands for none.
fn put_slice(alloc: Global, frame: &mut Frame, field: &Field<'_>, out: &mut Said) -> bool {
    match bytes_at(alloc, field.key, field.value.as_str()) {
        Ok(Some(slice)) => {
            frame.feed(slice.as_slice());
            put_heads(frame, out);
        }
        Ok(None) => return false,
        Err(AllocError) => out.run_short(),
    }
    true
}

// Appends the heads that end in what a frame holds, at most 16 of them, and what is left.
fn put_heads(frame: &mut Frame, out: &mut Said) {
    for _ in 0..16 {
        let read = frame.next();
        out.begin_line();
        put_next(frame, read, out);
        if matches!(read, Next::Need | Next::HeadTooLong) {
            out.put_number(", ", frame.begun());
            out.put_number(" begun, room ", frame.room());
            break;
        }
    }
}

fn put_next(frame: &Frame, read: Next, out: &mut Said) {
    match read {
        Next::Need => out.put("no head"),
        Next::Head(request) => put_request(request, frame.target(), out),
        Next::BadHead => out.put("bad head"),
        Next::HeadTooLong => out.put("head too long"),
    }
}

/// Appends a request's method and target, and whether the connection ends after it and it has a body.
pub fn put_request(request: Request, target: &[u8], out: &mut Said) {
    out.put(match request.method {
        Method::Get => "get ",
        Method::Head => "head ",
        Method::Other => "other ",
    });
    out.put_shown(target);
    out.put(if request.close { ", close" } else { "" });
    out.put(if request.has_body { ", body" } else { "" });
}
