//! What is said of a row.

use std::alloc::{AllocError, Global};
use std::fmt::{Debug, Display};

/// A text that grows by what is put. Once memory has run out, nothing more is put, and `text` says so: no call before
/// has to look.
#[derive(Drop)]
pub struct Said {
    text: String,
    is_short: bool,
}

impl Said {
    /// An empty text.
    pub fn new(alloc: Global) -> Said {
        Said {
            text: String::new(alloc),
            is_short: false,
        }
    }

    /// The text so far.
    pub fn as_str(&self) -> &str {
        self.text.as_str()
    }

    /// The whole text, or that memory ran out for it.
    pub fn text(self) -> Result<String, AllocError> {
        if self.is_short {
            Err(AllocError)
        } else {
            Ok(self.text)
        }
    }

    /// The text of a row that is known, or that memory ran out for it.
    pub(crate) fn known(
        &self,
        known: Result<bool, AllocError>,
    ) -> Result<Option<&str>, AllocError> {
        match known {
            Ok(_) if self.is_short => Err(AllocError),
            Ok(true) => Ok(Some(self.as_str())),
            Ok(false) => Ok(None),
            Err(AllocError) => Err(AllocError),
        }
    }

    /// Takes away all that was put. That memory ran out stays.
    pub fn clear(&mut self) {
        self.text.clear();
    }

    /// Takes the last character away.
    pub fn pop(&mut self) {
        self.text.pop();
    }

    /// Notes that memory ran out for what was to be put.
    pub fn run_short(&mut self) {
        self.is_short = true;
    }

    /// Appends a text.
    pub fn put(&mut self, text: &str) {
        if !self.is_short {
            self.is_short = self.text.push_str(text).is_err();
        }
    }

    /// Appends a text and a number behind it, in decimal.
    pub fn put_number<N: Display + Drop>(&mut self, before: &str, number: N) {
        self.put(before);
        if !self.is_short {
            self.is_short = write!(self.text, "{number}").is_err();
        }
    }

    /// Appends a text and a value behind it, as `{:?}` shows it.
    pub fn put_debug<T: Debug + Drop>(&mut self, before: &str, value: T) {
        self.put(before);
        if !self.is_short {
            self.is_short = write!(self.text, "{value:?}").is_err();
        }
    }

    /// Appends what another text says, or that memory ran out for it.
    pub fn put_said(&mut self, said: Said) {
        match said.text() {
            Ok(text) => self.put(text.as_str()),
            Err(AllocError) => self.run_short(),
        }
    }

    /// Ends the last line, where there is one.
    pub fn begin_line(&mut self) {
        if !self.text.is_empty() {
            self.put("\n");
        }
    }

    /// Appends bytes as words of eight hexadecimal digits with a blank between two words.
    pub fn put_hex(&mut self, bytes: &[u8]) {
        for (index, byte) in bytes.iter().enumerate() {
            if index > 0 && index % 4 == 0 {
                self.put(" ");
            }
            self.put_digits(*byte);
        }
    }

    /// Appends bytes so that a person reads them: printable characters and line feeds stand for themselves, a carriage
    /// return is `\r`, and any other byte and a backslash `\xNN`.
    pub fn put_shown(&mut self, bytes: &[u8]) {
        for byte in bytes {
            self.put_byte(*byte);
        }
    }

    fn put_byte(&mut self, byte: u8) {
        match byte {
            b'\r' => self.put("\\r"),
            b'\n' | b' '..=b'[' | b']'..=b'~' => self.put_char(byte as char),
            _ => {
                self.put("\\x");
                self.put_digits(byte);
            }
        }
    }

    fn put_digits(&mut self, byte: u8) {
        self.put_char(digit_of(byte / 16));
        self.put_char(digit_of(byte % 16));
    }

    fn put_char(&mut self, character: char) {
        if !self.is_short {
            self.is_short = self.text.push(character).is_err();
        }
    }
}

fn digit_of(value: u8) -> char {
    match value {
        0..=9 => (b'0' + value) as char,
        10..=15 => (b'a' + (value - 10)) as char,
        _ => '?',
    }
}
