//! Rows whose input is a text: units and instants, values, constraints, messages, words of a command, targets, the
//! heads of a stream of bytes, and sessions.
#![tactic(auto)]

mod calls;
mod constraints;
mod heads;
mod messages;
mod sessions;
mod targets;
mod times;
mod values;
mod words;

use calls::{Call, call_of, put_call};
use row_text::{Answers, Row, Said, bytes, content};
use std::alloc::{AllocError, Global};

/// The answers to rows about a text.
pub struct Texts;

impl Answers for Texts {
    fn answer(&self, alloc: Global, row: &Row<'_>, out: &mut Said) -> Result<bool, AllocError> {
        let Some((key, other, call)) = call_of(row) else {
            return Ok(put_course(alloc, row, out));
        };
        match row.bytes(alloc, key) {
            Ok(Some(text)) => put_text(alloc, row, call, text.as_slice(), other, out),
            Ok(None) => Ok(false),
            Err(AllocError) => Err(AllocError),
        }
    }
}

// Puts what comes out of a call about a text, and what else a row has at a key, where there is one.
fn put_text(
    alloc: Global,
    row: &Row<'_>,
    call: Call,
    text: &[u8],
    key: &str,
    out: &mut Said,
) -> Result<bool, AllocError> {
    if key.is_empty() {
        return Ok(put_call(alloc, call, text, b"", out));
    }
    match row.bytes(alloc, key) {
        Ok(Some(other)) => Ok(put_call(alloc, call, text, other.as_slice(), out)),
        Ok(None) => Ok(false),
        Err(AllocError) => Err(AllocError),
    }
}

// Puts what comes out of the lines of a row, one after the other: the heads of a stream, or what a session does.
fn put_course(alloc: Global, row: &Row<'_>, out: &mut Said) -> bool {
    if row.value("feed").is_some() || row.value("feed file").is_some() {
        heads::put_stream(alloc, row, out)
    } else if row.value("on").is_some() || row.value("on file").is_some() {
        sessions::put_events(alloc, row, out)
    } else {
        false
    }
}

// The bytes of a line: those that its value stands for, or where its key says `file` those that it describes.
fn bytes_at(alloc: Global, key: &str, value: &str) -> Result<Option<Vec<u8>>, AllocError> {
    if key.ends_with(" file") {
        content(alloc, &[], value)
    } else {
        bytes(alloc, value)
    }
}
