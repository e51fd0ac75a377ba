//! The content of a file, as a row describes it.

use crate::grown::Grown;
use crate::values::{hex, put_bytes_of};
use std::alloc::{AllocError, Global};
use std::io::Write;
use std::str::SplitWhitespace;

/// A file that rows begin from.
#[derive(Drop)]
pub struct File {
    pub path: String,
    pub content: Vec<u8>,
}

impl File {
    /// The name of the file, without the folders in front.
    pub fn name(&self) -> &str {
        self.path.as_str().rsplit('/').next().unwrap_or("")
    }
}

/// The content that words describe: the name of a file, or `hex` and its bytes; then any of `at OFFSET HEX` (these
/// bytes replace those from the offset on), `cut LENGTH` (the first bytes alone), `add HEX` (bytes more) and `fill
/// COUNT HEX` (bytes more, so often). `None` where the words say something else, or an offset or a length lies past the
/// end.
pub fn content(alloc: Global, files: &[File], words: &str) -> Result<Option<Vec<u8>>, AllocError> {
    let mut grown = Grown::new(alloc);
    let known = put_content(alloc, files, words, &mut grown);
    grown.end(known)
}

// Appends the content that words describe. It is false where they describe none.
fn put_content(alloc: Global, files: &[File], words: &str, out: &mut Grown) -> bool {
    let mut words = words.split_whitespace();
    let begun = match words.next().unwrap_or("") {
        "hex" => put_bytes_of(words.next().unwrap_or(""), out),
        name => put_named(files, name, out),
    };
    begun && change_each(alloc, words, out)
}

// Makes the changes that words describe. It is false where they describe none.
fn change_each(alloc: Global, mut words: SplitWhitespace<'_>, out: &mut Grown) -> bool {
    while let Some(word) = words.next() {
        let first = words.next().unwrap_or("");
        let second = if has_two(word) { words.next() } else { None };
        if !change(alloc, word, first, second.unwrap_or(""), out) {
            return false;
        }
    }
    true
}

// Whether two words stand behind the word for a change.
fn has_two(word: &str) -> bool {
    word == "at" || word == "fill"
}

// Makes the change that a word and those behind it describe. It is false where they describe none.
fn change(alloc: Global, word: &str, first: &str, second: &str, out: &mut Grown) -> bool {
    match word {
        "cut" => cut(&mut out.bytes, first),
        "add" => !first.is_empty() && put_bytes_of(first, out),
        _ => put_by(alloc, word, first, second, out),
    }
}

// Appends the content of the file of a name. It is false where there is none.
fn put_named(files: &[File], name: &str, out: &mut Grown) -> bool {
    for file in files {
        if file.name() == name {
            out.put(file.content.as_slice());
            return true;
        }
    }
    false
}

fn cut(content: &mut Vec<u8>, len: &str) -> bool {
    match len.parse::<usize>() {
        Ok(len) if len <= content.len() => {
            content.truncate(len);
            true
        }
        _ => false,
    }
}

// Puts bytes by a number: `at` this offset, or `fill` so often.
fn put_by(alloc: Global, word: &str, number: &str, digits: &str, out: &mut Grown) -> bool {
    let (Ok(number), Ok(Some(bytes))) = (number.parse::<usize>(), hex(alloc, digits)) else {
        return false;
    };
    let is_put = match word {
        "at" => put_at(out.bytes.as_mut_slice(), number, bytes.as_slice()),
        "fill" => repeat(out, number, bytes.as_slice()),
        _ => false,
    };
    drop(bytes);
    is_put
}

// Puts bytes in place of those from an offset on. It is false where there is no byte, or one past the end.
fn put_at(content: &mut [u8], offset: usize, bytes: &[u8]) -> bool {
    match content.get_mut(offset..) {
        Some(mut room) => !bytes.is_empty() && room.write_all(bytes).is_ok(),
        None => false,
    }
}

// Appends bytes so often. It is false where there are none.
fn repeat(out: &mut Grown, count: usize, bytes: &[u8]) -> bool {
    for _ in 0..count {
        out.put(bytes);
    }
    !bytes.is_empty()
}
