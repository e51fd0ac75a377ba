//! Keys by the second at which something is due.
ghost use Rattle.std.specs.Prelude.{◌≡◌, ◌+◌, ◌/◌};

use std::alloc::{AllocError, Global};

// How many seconds ahead a key can stand.
const SECONDS: u64 = 64;

// Where no key follows.
const NONE: usize = usize::MAX;

/// The second of a moment in milliseconds.
pub fn second_of(moment: u64) -> u64
    ensures { result ≡ moment / 1000 }
{
    moment / 1000
}

/// The first second that begins after a moment.
pub fn second_after(moment: u64) -> u64
    ensures { result ≡ moment / 1000 + 1 }
{
    moment / 1000 + 1
}

// The place of a key: whether it is in the wheel, and the key that follows in its second.
#[derive(Clone, Copy)]
struct Place {
    is_in: bool,
    next: usize,
}

/// Keys by the second at which something is due, each at most once. To put one in and to take one out costs the same
/// however many there are.
#[derive(Drop)]
pub struct Wheel {
    // the first key of each second, by the second modulo 64
    firsts: [usize; 64],
    places: Vec<Place>,
    // no key stands in a second before this one
    second: u64,
}

impl Wheel {
    /// A wheel without keys, from this second on.
    pub fn new(alloc: Global, second: u64) -> Wheel {
        Wheel {
            firsts: [NONE; 64],
            places: Vec::new(alloc),
            second,
        }
    }

    /// Makes room for the keys up to this one.
    pub fn make_room(&mut self, key: usize) -> Result<(), AllocError> {
        let count = self.places.len().max(key.saturating_add(1));
        self.places.resize(
            count,
            Place {
                is_in: false,
                next: NONE,
            },
        )
    }

    /// Takes out all keys, and gives back the room for them.
    pub fn clear(&mut self) {
        self.firsts = [NONE; 64];
        self.places.clear();
        self.places.shrink_to_fit();
    }

    /// Puts in a key, unless it is in already or there is no room for it. A second that has passed counts as the
    /// present one, and one that is too far ahead as the last one that can be.
    pub fn put(&mut self, key: usize, second: u64) {
        let last = self.second.saturating_add(SECONDS - 1);
        let index = (second.max(self.second).min(last) % SECONDS) as usize;
        if let Some(place) = self.places.get_mut(key)
            && !place.is_in
        {
            *place = Place {
                is_in: true,
                next: self.firsts[index],
            };
            self.firsts[index] = key;
        }
    }

    // Takes out a key of the present second, if there is one.
    fn pop_present(&mut self) -> Option<usize> {
        let index = (self.second % SECONDS) as usize;
        let first = self.firsts[index];
        let place = self.places.get_mut(first)?;
        self.firsts[index] = place.next;
        place.is_in = false;
        Some(first)
    }

    /// Takes out a key that is due by this second, if there is one.
    pub fn pop(&mut self, now: u64) -> Option<usize> {
        for _ in 0..SECONDS {
            if let Some(key) = self.pop_present() {
                return Some(key);
            }
            if now <= self.second {
                return None;
            }
            self.second += 1;
        }
        self.second = now;
        None
    }

    /// Has each key that is in due at once.
    pub fn hurry(&mut self) {
        let mut first = NONE;
        for (key, place) in self.places.as_mut_slice().iter_mut().enumerate() {
            if place.is_in {
                place.next = first;
                first = key;
            }
        }
        self.firsts = [NONE; 64];
        self.firsts[(self.second % SECONDS) as usize] = first;
    }

    /// The first second at which a key is due, if there is one.
    pub fn next_due(&self) -> Option<u64> {
        for second in self.second..self.second.saturating_add(SECONDS) {
            if self.firsts[(second % SECONDS) as usize] != NONE {
                return Some(second);
            }
        }
        None
    }
}
