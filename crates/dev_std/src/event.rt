//! What became of a folder, an address or a clock, as a line.

use crate::line::{Line, Tell};
use std::fmt::Write;
use std::io::Error;

/// What became of a folder, an address or a clock, or of a file in a folder.
#[derive(Clone, Copy)]
pub struct Event<'a> {
    // how its line begins
    word: &'a str,
    // The name of the file, which need not be text.
    name: &'a [u8],
    // what the line says
    text: &'a str,
    // the error of the system that it is about
    error: Option<Error>,
}

impl<'a> Event<'a> {
    /// A place fails, or the file of a name in it, for an error of the system.
    pub fn failing(name: &'a [u8], text: &'a str, error: Error) -> Event<'a> {
        Event {
            word: "failing",
            name,
            text,
            error: Some(error),
        }
    }

    /// A place works again, or fails with no error of the system.
    pub fn plain(word: &'a str, text: &'a str) -> Event<'a> {
        Event {
            word,
            name: b"",
            text,
            error: None,
        }
    }

    /// A name in a folder isn't taken in.
    pub fn passed_over(name: &'a [u8], text: &'a str) -> Event<'a> {
        Event {
            word: "passed over",
            name,
            text,
            error: None,
        }
    }
}

// Puts a name. What isn't text in it becomes U+FFFD.
fn put_name(line: &mut Line, name: &[u8]) {
    for chunk in name.utf8_chunks() {
        line.put(chunk.valid().as_bytes());
        if !chunk.invalid().is_empty() {
            line.put("\u{FFFD}".as_bytes());
        }
    }
}

const BLANK: &[u8] = b" ";

const COLON: &[u8] = b": ";

// Puts what became of a folder, an address or a clock.
fn put_event(line: &mut Line, place: &str, event: Event<'_>) {
    line.put_parts(&[event.word.as_bytes(), BLANK, place.as_bytes(), COLON]);
    put_name(line, event.name);
    line.put(event.text.as_bytes());
    put_error(line, event.error);
}

// Puts the error of the system that a line is about, where it is about one.
fn put_error(line: &mut Line, error: Option<Error>) {
    if let Some(error) = error {
        let _put = write!(line, ": {error}");
    }
}

/// Tells what became of a folder, an address or a clock.
pub fn tell_of<T: Tell>(tell: &T, place: &str, event: Event<'_>) {
    let mut line = Line::new();
    put_event(&mut line, place, event);
    tell.tell(&[line.as_slice()]);
}
