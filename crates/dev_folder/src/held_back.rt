//! The names in a folder that aren't offered again yet.
ghost use Rattle.std.specs.Prelude.{◌≡◌};
ghost use Rattle.dev_folder.specs.HeldBack.{holds_at};

use crate::names::Shelf;
use crate::stamp::Stamp;
use std::alloc::{AllocError, Global};

// For how many milliseconds what couldn't be taken in is left alone.
pub(crate) const MINUTE: u64 = 60_000;

/// Why a file that lies in a folder isn't offered again yet.
#[derive(Clone, Copy)]
pub enum Reason {
    /// At this moment, in milliseconds, no file could be read there.
    Unread(u64),
    /// It got its verdict, and couldn't be moved to this folder yet.
    Unmoved(Shelf),
}

impl Reason {
    /// Whether the file is left alone at a moment, in milliseconds.
    pub fn holds(self, now: u64) -> bool
        ensures { result ≡ holds_at self now }
    {
        match self {
            Reason::Unread(since) => now < since.saturating_add(MINUTE),
            Reason::Unmoved(_) => true,
        }
    }
}

// A name, and the file that lay under it.
#[derive(Drop)]
pub(crate) struct Given {
    pub name: String,
    pub stamp: Stamp,
}

// A name that isn't offered again yet.
#[derive(Drop)]
pub(crate) struct Held {
    pub given: Given,
    pub reason: Reason,
    pub is_kept: bool,
}

impl Held {
    fn name(&self) -> &str {
        self.given.name.as_str()
    }

    // Whether its file couldn't be moved.
    fn is_unmoved(&self) -> bool {
        matches!(self.reason, Reason::Unmoved(_))
    }

    // Whether a file is left alone that a listing found under its name. One that isn't is dropped.
    fn holds(&mut self, stamp: Stamp, now: u64) -> bool {
        self.is_kept = self.given.stamp == stamp && self.reason.holds(now);
        self.is_kept
    }
}

// None of these was found in a listing yet.
fn begin_all(all: &mut [Held]) {
    for held in all {
        held.is_kept = false;
    }
}

// The names that aren't offered again yet, while the same files lie under them.
#[derive(Drop)]
pub(crate) struct HeldBack {
    pub all: Vec<Held>,
}

impl HeldBack {
    pub fn new(alloc: Global) -> HeldBack {
        HeldBack {
            all: Vec::new(alloc),
        }
    }

    // Makes room for one more.
    pub fn make_room(&mut self) -> Result<(), AllocError> {
        self.all.reserve(1)
    }

    // Puts a name in. Where no room was made, it is offered again.
    pub fn put(&mut self, given: Given, reason: Reason) {
        let _put = self.all.push(Held {
            given,
            reason,
            is_kept: true,
        });
    }

    // Begins a listing. Those that `end` is to keep have to be found in it.
    pub fn begin(&mut self) {
        begin_all(self.all.as_mut_slice());
        self.all
            .sort_unstable_by(|one, other| one.given.name.cmp(&other.given.name));
    }

    // What is held back under a name, in a listing, if something is.
    fn find(&mut self, name: &str) -> Option<&mut Held> {
        let found = self
            .all
            .as_slice()
            .binary_search_by(|held| held.given.name.as_str().cmp(name));
        match found {
            Ok(index) => self.all.get_mut(index),
            Err(_) => None,
        }
    }

    // Whether a file is left alone that a listing found under a name.
    pub fn holds(&mut self, name: &str, stamp: Stamp, now: u64) -> bool {
        match self.find(name) {
            Some(held) => held.holds(stamp, now),
            None => false,
        }
    }

    // Keeps a name of which a listing doesn't know what lies there.
    pub fn keep(&mut self, name: &str) {
        if let Some(held) = self.find(name) {
            held.is_kept = true;
        }
    }

    // Ends a listing, and drops the names that it didn't find.
    pub fn end(&mut self) {
        self.all.retain(|held| held.is_kept);
    }

    // The first name whose file couldn't be read, or be moved.
    pub fn first(&self, is_unmoved: bool) -> Option<&str> {
        for held in self.all.as_slice() {
            if held.is_unmoved() == is_unmoved {
                return Some(held.name());
            }
        }
        None
    }
}
