//! What the lines about the collections of a server begin with.

use crate::stepped::{Stepped, put_steps};
use dev_host::Collections;
use fm_base::{Bytes, List};
use row_text::Said;
use std::alloc::Global;

/// Puts a line about each inbox and each clock that a server with these words opens one after the other, with what it
/// begins with: `inbox`, `clock`.
pub fn put_collections(alloc: Global, words: &str, steps: &str, out: &mut Said) -> bool {
    let mut list = List::new(alloc);
    let known = put_words(alloc, words, &mut list)
        && put_steps(Collections::of_words(list.as_slice()), steps, out);
    drop(list);
    known
}

fn put_words(alloc: Global, words: &str, list: &mut List<Bytes>) -> bool {
    for word in words.split_whitespace() {
        if put_word(alloc, word, list).is_none() {
            return false;
        }
    }
    true
}

fn put_word(alloc: Global, word: &str, list: &mut List<Bytes>) -> Option<()> {
    let word = Bytes::copy_of(alloc, word.as_bytes()).ok()?;
    list.push(word).ok()
}

impl Stepped for Collections {
    fn put_step(&mut self, line: &str, out: &mut Said) -> bool {
        let prefix = match line {
            "inbox" => self.next_inbox(),
            "clock" => self.next_clock(),
            _ => return false,
        };
        out.put_shown(prefix.as_slice());
        out.put("line\n");
        true
    }
}
