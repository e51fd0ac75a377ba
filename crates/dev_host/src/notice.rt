//! Lines with a number: of a clock that jumped, and of a server that is open.

use crate::moment::Jump;
use dev_std::{Line, Tell};
use std::fmt::Write;

const SKIPPED: &[u8] = b"skipped a moment: the clock went ";

// Tells that the moment is skipped to which a clock jumped.
pub(crate) fn tell_skipped<T: Tell>(tell: &T, jump: Jump) {
    let (way, seconds) = match jump {
        Jump::Ahead(seconds) => ("ahead by ", seconds),
        Jump::Back(seconds) => ("back by ", seconds),
    };
    let mut line = Line::new();
    line.put_parts(&[SKIPPED, way.as_bytes()]);
    tell_number(tell, &mut line, seconds, b" seconds");
}

// Tells a line, behind which stand a number and what it counts.
fn tell_number<T: Tell>(tell: &T, line: &mut Line, number: u64, counted: &[u8]) {
    let _put = write!(line, "{number}");
    line.put(counted);
    tell.tell(&[line.as_slice()]);
}

/// Tells a line, and behind it how many connections there is room for, where that is known.
pub fn tell_with_room<T: Tell>(tell: &T, line: &[&[u8]], room: Option<u64>) {
    let Some(count) = room else {
        tell.tell(line);
        return;
    };
    let mut text = Line::new();
    text.put_parts(line);
    text.put(b", room for ");
    tell_number(tell, &mut text, count, b" connections");
}
