//! Devices that go through the steps of a row.

use row_text::Said;
use std::fmt::Display;

/// What does the steps of a row.
pub(crate) trait Stepped {
    /// Appends lines of what a step does. It is false where a line says none.
    fn put_step(&mut self, line: &str, out: &mut Said) -> bool;
}

/// Appends what the steps of a device do. It is false where a line says none.
pub(crate) fn put_steps<D: Stepped + Drop>(mut device: D, steps: &str, out: &mut Said) -> bool {
    let known = put_each(&mut device, steps, out);
    drop(device);
    out.pop();
    known
}

fn put_each<D: Stepped>(device: &mut D, steps: &str, out: &mut Said) -> bool {
    for line in steps.lines() {
        if !device.put_step(line, out) {
            return false;
        }
    }
    true
}

/// What stands before the last blank, and the number behind it, where there is one.
pub(crate) fn word_and_number(line: &str) -> (&str, Option<u64>) {
    match line.rsplit_once(' ') {
        Some((word, number)) => (word, number.parse::<u64>().ok()),
        None => (line, None),
    }
}

/// Appends a line of a text and a number behind it.
pub(crate) fn put_number_line<N: Display + Drop>(before: &str, number: N, out: &mut Said) {
    out.put_number(before, number);
    out.put("\n");
}
