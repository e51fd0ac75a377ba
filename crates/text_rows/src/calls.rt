//! The calls that rows about a text name by their keys.

use super::constraints::put_constraint;
use super::heads::put_head;
use super::messages::put_message;
use super::sessions::put_input;
use super::targets::put_target;
use super::times::{put_instant, put_seconds, put_units};
use super::values::{put_quote, put_value};
use super::words::{Wanted, put_words};
use row_text::{Row, Said};
use std::alloc::Global;
use std::str;
use tm_units::read_mark;

/// What is called with a text.
#[derive(Clone, Copy)]
pub enum Call {
    Units,
    UnitsIn,
    Mark,
    Instant,
    Value,
    Seconds,
    Quote,
    Constraint,
    Message,
    Words,
    WordsShow,
    WordsSay,
    NoWords,
    NoWordsSay,
    Target,
    Head,
    Input,
}

// The keys of the rows of each call, beside `name` and `want`: that of the text, and maybe one of what else is given.
const CALLS: &[(&str, &str, Call)] = &[
    ("units", "", Call::Units),
    ("units", "calendar", Call::UnitsIn),
    ("mark", "after", Call::Mark),
    ("instant", "", Call::Instant),
    ("value", "", Call::Value),
    ("value", "per", Call::Seconds),
    ("quoted", "", Call::Quote),
    ("constraint", "", Call::Constraint),
    ("message", "data", Call::Message),
    ("words", "", Call::Words),
    ("words", "shows", Call::WordsShow),
    ("words", "says", Call::WordsSay),
    ("no words", "", Call::NoWords),
    ("no words", "says", Call::NoWordsSay),
    ("target", "epoch", Call::Target),
    ("head", "", Call::Head),
    ("input", "", Call::Input),
];

/// The call of a row with the keys of what it is given.
pub fn call_of(row: &Row<'_>) -> Option<(&'static str, &'static str, Call)> {
    for (key, other, call) in CALLS {
        if has_only(row, key, other) {
            return Some((*key, *other, *call));
        }
    }
    None
}

// Whether a row has a key once, and the other one too where it isn't empty.
fn has_only(row: &Row<'_>, key: &str, other: &str) -> bool {
    if other.is_empty() {
        row.has_each(&[key])
    } else {
        row.has_each(&[key, other])
    }
}

/// Puts what comes out of a call with a text, and with what else is given. It is false where they aren't for that call.
pub fn put_call(alloc: Global, call: Call, text: &[u8], other: &[u8], out: &mut Said) -> bool {
    match call {
        Call::Value => return put_value(alloc, text_of(text), None, out),
        Call::Seconds => return put_seconds_in(alloc, text, other, out),
        Call::Message => return put_message(alloc, text, text_of(other), out),
        Call::Target => return put_target(alloc, text_of(other), text, out),
        Call::Units => put_units(text, None, out),
        Call::UnitsIn => put_units(text, Some(other), out),
        Call::Mark => put_seconds(read_mark(text, other), out),
        Call::Instant => put_instant(alloc, text, out),
        Call::Quote => put_quote(alloc, text, out),
        Call::Constraint => put_constraint(alloc, text, out),
        Call::Words => put_words(alloc, Some(text), Wanted::Job, out),
        Call::WordsShow => put_words(alloc, Some(text), Wanted::Part(text_of(other)), out),
        Call::WordsSay => put_words(alloc, Some(text), Wanted::Reason, out),
        Call::NoWords => put_words(alloc, None, Wanted::Job, out),
        Call::NoWordsSay => put_words(alloc, None, Wanted::Reason, out),
        Call::Head => put_head(alloc, text, out),
        Call::Input => put_input(alloc, text, out),
    }
    true
}

// Puts the whole seconds of a value, in a unit of the seconds of a number; false where it is none.
fn put_seconds_in(alloc: Global, value: &[u8], per: &[u8], out: &mut Said) -> bool {
    match text_of(per).parse::<u32>() {
        Ok(per) => put_value(alloc, text_of(value), Some(per), out),
        Err(_) => false,
    }
}

fn text_of(bytes: &[u8]) -> &str {
    str::from_utf8(bytes).unwrap_or("")
}
