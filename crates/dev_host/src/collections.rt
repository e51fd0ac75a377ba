//! The names of a server's collections, with which the lines about their folders and clocks begin.

use fm_base::Bytes;
use std::io::Read;
use std::str;

// The most bytes of a name.
const LONGEST: usize = 64;

// The most collections that have names in lines.
const MOST: usize = 4;

/// What a line about a collection begins with: its name and a blank, or nothing. It takes no memory.
#[derive(Clone, Copy)]
pub struct Prefix {
    bytes: [u8; 65],
    len: usize,
}

const NONE: Prefix = Prefix {
    bytes: [b' '; 65],
    len: 0,
};

impl Prefix {
    // Nothing.
    pub(crate) fn none() -> Prefix {
        NONE
    }

    // A name, of which 64 bytes are taken at most, and a blank.
    fn of(name: &[u8]) -> Prefix {
        let mut bytes = [b' '; 65];
        let (room, _) = bytes.split_at_mut(LONGEST);
        let mut left = name;
        let len = left.read(room).unwrap_or(0);
        Prefix {
            bytes,
            len: len.saturating_add(1),
        }
    }

    /// Its bytes.
    pub fn as_slice(&self) -> &[u8] {
        self.bytes.get(..self.len).unwrap_or(b"")
    }
}

// The name that a word `NAME=PROTO=INBOX` gives a collection.
fn name_in(word: &[u8]) -> Option<&[u8]> {
    let (name, rest) = str::from_utf8(word).ok()?.split_once('=')?;
    if rest.contains('=') {
        Some(name.as_bytes())
    } else {
        None
    }
}

/// What the lines about each collection of a server begin with. The inboxes and the clocks of the collections are
/// opened in the order of their words.
#[derive(Clone, Copy)]
pub struct Collections {
    prefixes: [Prefix; 4],
    len: usize,
    // how many inboxes were opened, and how many clocks
    inboxes: usize,
    clocks: usize,
}

impl Collections {
    /// None that is named in lines.
    pub fn none() -> Collections {
        Collections {
            prefixes: [NONE; 4],
            len: 0,
            inboxes: 0,
            clocks: 0,
        }
    }

    /// Those of a run with these words: each has its name in lines where the command is `many`.
    pub fn of_words(words: &[Bytes]) -> Collections {
        let mut found = Collections::none();
        if let Some((command, rest)) = words.split_first()
            && command.as_slice() == b"many".as_slice()
        {
            found.add_all(rest);
        }
        found
    }

    // Adds those of the words behind `many`. Before `--` an option may stand, which begins with `-`.
    fn add_all(&mut self, words: &[Bytes]) {
        let mut may_be_option = true;
        for word in words {
            if word.as_slice() == b"--".as_slice() {
                may_be_option = false;
            } else if !may_be_option || !word.as_slice().starts_with(b"-") {
                self.add(word.as_slice());
            }
        }
    }

    // Adds that of a word, where it is one.
    fn add(&mut self, word: &[u8]) {
        if let Some(name) = name_in(word)
            && self.len < MOST
        {
            self.prefixes[self.len] = Prefix::of(name);
            self.len += 1;
        }
    }

    // What the lines about the collection of this number begin with.
    fn prefix(&self, number: usize) -> Prefix {
        self.prefixes.get(number).copied().unwrap_or(NONE)
    }

    /// What the lines about the next inbox begin with.
    pub fn next_inbox(&mut self) -> Prefix {
        let prefix = self.prefix(self.inboxes);
        self.inboxes = self.inboxes.saturating_add(1);
        prefix
    }

    /// What the lines about the next clock begin with.
    pub fn next_clock(&mut self) -> Prefix {
        let prefix = self.prefix(self.clocks);
        self.clocks = self.clocks.saturating_add(1);
        prefix
    }
}
