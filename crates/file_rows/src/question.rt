//! Questions about a file.

use super::layouts::put_vars;
use super::loading::put_loaded;
use super::prototypes::put_prototype;
use super::words::put_header;
use fm_model::{MAX_FILE_BYTES, Proto};
use row_text::Said;
use std::alloc::Global;

/// A question about the bytes alone, or over a prototype and under a name.
#[derive(Clone, Copy)]
pub enum Question<'a> {
    Header,
    Layout,
    Elements,
    Prototype,
    Load(&'a Proto, &'a str),
}

impl Question<'_> {
    /// Puts the answer about some bytes. Where `cuts` says `FROM to TO`, it is about the first `len` bytes for each
    /// `len` in that range, with a line where the answer differs from that of the length before. It is false where
    /// there are no such lengths.
    pub fn put(&self, alloc: Global, bytes: &[u8], cuts: Option<&str>, out: &mut Said) -> bool {
        let Some(cuts) = cuts else {
            return self.put_answer(alloc, bytes, out);
        };
        let Some((from, to)) = lengths(cuts) else {
            return false;
        };
        let mut last = Said::new(alloc);
        for len in from..to.saturating_add(1) {
            if !self.put_cut(alloc, bytes, len, &mut last, out) {
                return false;
            }
        }
        true
    }

    // Puts a line of the answer about the first bytes, where it isn't the last, and takes it as the last.
    fn put_cut(
        &self,
        alloc: Global,
        bytes: &[u8],
        len: usize,
        last: &mut Said,
        out: &mut Said,
    ) -> bool {
        let Some(front) = bytes.get(..len) else {
            return false;
        };
        let mut answer = Said::new(alloc);
        let known = self.put_answer(alloc, front, &mut answer);
        put_other(len, answer.as_str(), last, out);
        known
    }

    fn put_answer(&self, alloc: Global, bytes: &[u8], out: &mut Said) -> bool {
        match self {
            Question::Header => put_header(alloc, bytes, out),
            Question::Layout => put_vars(alloc, bytes, false, out),
            Question::Elements => put_vars(alloc, bytes, true, out),
            Question::Prototype => put_prototype(alloc, bytes, out),
            Question::Load(proto, name) => {
                if bytes.len() as u64 > MAX_FILE_BYTES {
                    return false;
                }
                put_loaded(alloc, proto, name, bytes, out);
            }
        }
        true
    }
}

// Puts a line of an answer, where it isn't the last, and takes it as the last.
fn put_other(len: usize, answer: &str, last: &mut Said, out: &mut Said) {
    if answer != last.as_str() {
        last.clear();
        last.put(answer);
        out.begin_line();
        out.put_number("", len);
        out.put(": ");
        out.put(answer);
    }
}

fn lengths(cuts: &str) -> Option<(usize, usize)> {
    let (from, to) = cuts.split_once(" to ")?;
    Some((length(from)?, length(to)?))
}

fn length(word: &str) -> Option<usize> {
    word.parse::<usize>().ok()
}
