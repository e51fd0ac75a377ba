//! Lines for who looks after a server, and what takes them.
ghost use Rattle.std.specs.Prelude.{◌≤◌};

use std::fmt::{self, Write};

// The greatest length of a line, with its end.
const LONGEST: usize = 512;

// The greatest length of its text, which leaves room for two dots and the end.
const ROOM: usize = 509;

/// A line, which takes no memory. A byte of control becomes `?`, and what has no room becomes two dots.
#[derive(Drop)]
pub struct Line {
    bytes: [u8; 512],
    len: usize,
    is_cut: bool,
    ghost within: { len ≤ 512 },
}

impl Line {
    /// A line without text.
    pub fn new() -> Line {
        Line {
            bytes: [0; 512],
            len: 0,
            is_cut: false,
        }
    }

    // Puts a byte, where there is room.
    fn put_byte(&mut self, byte: u8) {
        if self.len < LONGEST {
            self.bytes[self.len] = byte;
            self.len += 1;
        }
    }

    /// Puts a part.
    pub fn put(&mut self, part: &[u8]) {
        for byte in part {
            if self.len >= ROOM {
                self.is_cut = true;
                return;
            }
            self.put_byte(if *byte < b' ' || *byte == 127 {
                b'?'
            } else {
                *byte
            });
        }
    }

    /// Puts some parts.
    pub fn put_parts(&mut self, parts: &[&[u8]]) {
        for part in parts {
            self.put(*part);
        }
    }

    /// Puts the end.
    pub fn end(&mut self) {
        if self.is_cut {
            self.put_byte(b'.');
            self.put_byte(b'.');
        }
        self.put_byte(b'\n');
    }

    /// All that was put.
    pub fn as_slice(&self) -> &[u8] {
        let bytes: &[u8] = &self.bytes;
        &bytes[..self.len]
    }
}

impl Write for Line {
    fn write_str(&mut self, text: &str) -> fmt::Result {
        self.put(text.as_bytes());
        Ok(())
    }
}

/// What takes lines. It holds nothing up, and a line that it can't take is lost.
pub trait Tell {
    /// Takes the line of these parts, which has no end yet.
    fn tell(&self, line: &[&[u8]]);
}

impl<T: Tell> Tell for Option<T> {
    fn tell(&self, line: &[&[u8]]) {
        if let Some(tell) = self {
            tell.tell(line);
        }
    }
}
