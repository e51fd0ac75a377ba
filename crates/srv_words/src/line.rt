//! A line for a person, while it is written.

use fm_base::NoMemory;
use std::alloc::Global;
use std::fmt::Write;

// The most characters of a text that the line shows.
const MOST_SHOWN: usize = 200;

/// A text that grows by what is put. Once memory has run out, nothing more is put, and `text` says so: no call before
/// has to look.
#[derive(Drop)]
pub(crate) struct Line {
    text: String,
    is_short: bool,
}

impl Line {
    /// An empty text.
    pub(crate) fn new(alloc: Global) -> Line {
        Line {
            text: String::new(alloc),
            is_short: false,
        }
    }

    /// The whole text, or that memory ran out for it.
    pub(crate) fn text(self) -> Result<String, NoMemory> {
        if self.is_short {
            Err(NoMemory)
        } else {
            Ok(self.text)
        }
    }

    /// Notes that memory ran out for what was to be put.
    pub(crate) fn run_short(&mut self) {
        self.is_short = true;
    }

    /// Puts a text.
    pub(crate) fn put(&mut self, text: &str) {
        if !self.is_short {
            self.is_short = self.text.push_str(text).is_err();
        }
    }

    /// Puts a number, in decimal.
    pub(crate) fn put_number(&mut self, number: usize) {
        if !self.is_short {
            self.is_short = write!(self.text, "{number}").is_err();
        }
    }

    /// Puts the first characters of a text, and `?` for one that isn't shown.
    pub(crate) fn put_shown(&mut self, text: &str) {
        for letter in text.chars().take(MOST_SHOWN) {
            self.put_letter(if letter.is_control() { '?' } else { letter });
        }
    }

    fn put_letter(&mut self, letter: char) {
        if !self.is_short {
            self.is_short = self.text.push(letter).is_err();
        }
    }
}
