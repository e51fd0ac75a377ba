//! What inboxes and clocks tell.

use dev_host::Tell;
use row_text::Said;
use std::alloc::{AllocError, Global};
use std::cell::Cell;
use std::str;

// The lines that were told since they were put out last.
#[derive(Drop)]
pub(crate) struct Heard {
    lines: Cell<Option<Said>>,
    alloc: Global,
}

impl Heard {
    pub fn new(alloc: Global) -> Heard {
        Heard {
            lines: Cell::new(None),
            alloc,
        }
    }

    // Appends the lines as they are.
    pub fn put_all(&self, out: &mut Said) {
        if let Some(lines) = self.lines.take() {
            out.put_said(lines);
        }
    }

    // Appends the lines, in which a folder at a path is `in`, or `nothing said`.
    pub fn put_lines(&self, path: &str, out: &mut Said) {
        match self.lines.take() {
            Some(lines) => {
                put_inside(self.alloc, lines.as_str(), path, out);
                drop(lines);
            }
            None => out.put("nothing said\n"),
        }
    }
}

fn put_inside(alloc: Global, lines: &str, path: &str, out: &mut Said) {
    match lines.replace(alloc, path, "in") {
        Ok(lines) => {
            out.put(lines.as_str());
            drop(lines);
        }
        Err(AllocError) => out.run_short(),
    }
}

// Adds a line to these. A part that isn't text is left out.
fn add(lines: &mut Said, line: &[&[u8]]) {
    for part in line {
        if let Ok(text) = str::from_utf8(*part) {
            lines.put(text);
        }
    }
    lines.put("\n");
}

impl Tell for Heard {
    fn tell(&self, line: &[&[u8]]) {
        let mut lines = match self.lines.take() {
            Some(lines) => lines,
            None => Said::new(self.alloc),
        };
        add(&mut lines, line);
        self.lines.set(Some(lines));
    }
}
