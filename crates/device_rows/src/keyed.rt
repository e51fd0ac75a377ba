//! Keys in a wheel of seconds.

use crate::stepped::{Stepped, put_number_line, put_steps, word_and_number};
use dev_host::Wheel;
use row_text::Said;
use std::alloc::Global;

/// Puts what a wheel does from a second on: `room KEY` makes room for the keys up to this, `put KEY SECOND` puts a key
/// in, `pop SECOND` takes one out, `clear` takes out all, `due` is the first second at which one is due, `hurry` has
/// all due at once.
pub fn put_wheel(alloc: Global, second: &str, steps: &str, out: &mut Said) -> bool {
    match second.parse::<u64>() {
        Ok(second) => put_steps(Wheel::new(alloc, second), steps, out),
        Err(_) => false,
    }
}

impl Stepped for Wheel {
    fn put_step(&mut self, line: &str, out: &mut Said) -> bool {
        match word_and_number(line) {
            ("due", None) => put_due(self.next_due(), out),
            ("hurry", None) => self.hurry(),
            ("clear", None) => self.clear(),
            ("pop", Some(second)) => put_popped(self.pop(second), out),
            ("room", Some(key)) => return self.make_room(key as usize).is_ok(),
            (word, Some(second)) => return put_key(self, word, second),
            _ => return false,
        }
        true
    }
}

fn put_due(due: Option<u64>, out: &mut Said) {
    match due {
        Some(second) => put_number_line("due at ", second, out),
        None => out.put("none is due\n"),
    }
}

fn put_popped(key: Option<usize>, out: &mut Said) {
    match key {
        Some(key) => put_number_line("", key, out),
        None => out.put("none\n"),
    }
}

// Puts the key of `put KEY` in. It is false where words say something else.
fn put_key(wheel: &mut Wheel, words: &str, second: u64) -> bool {
    match word_and_number(words) {
        ("put", Some(key)) => {
            wheel.put(key as usize, second);
            true
        }
        _ => false,
    }
}
