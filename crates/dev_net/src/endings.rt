//! The connections of a door that have ended.

use crate::closing::Ending;
use crate::watching::{Watch, Watched};
use crate::wheel::{Wheel, second_after, second_of};
use mio::net::TcpStream;
use slab::Slab;
use std::alloc::{AllocError, Global};

// Connections that have ended, of which what still comes is dropped, and when each is closed at the latest.
#[derive(Drop)]
pub(crate) struct Endings {
    table: Slab<Ending<TcpStream>>,
    times: Wheel,
}

impl Endings {
    pub fn new(alloc: Global, now: u64) -> Endings {
        Endings {
            table: Slab::new(alloc),
            times: Wheel::new(alloc, second_of(now)),
        }
    }

    pub fn is_empty(&self) -> bool {
        self.table.is_empty()
    }

    // Makes room for `count` more.
    pub fn make_room(&mut self, count: usize) -> Result<(), AllocError> {
        self.table.reserve(count)?;
        self.times.make_room(self.table.capacity())
    }

    // Gives back the room for connections where each is closed.
    pub fn give_back(&mut self) {
        if self.table.is_empty() {
            self.table.shrink_to_fit();
            self.times.clear();
        }
    }

    // Ends a connection. What still comes is dropped without waiting for it.
    pub fn end(&mut self, watch: &Watch, stream: TcpStream, now: u64) {
        let mut ending = Ending::new(stream, now);
        if is_watched(watch, &mut ending, self.table.vacant_key(), now) {
            self.put(ending);
        } else {
            drop(ending);
        }
    }

    // Puts in a connection that is watched.
    fn put(&mut self, ending: Ending<TcpStream>) {
        let until = ending.until();
        if let Ok(key) = self.table.insert(ending) {
            self.times.put(key, second_after(until));
        }
    }

    // Drops what has come of the connection of a key, and closes it where that was the last.
    pub fn go_on(&mut self, key: usize, now: u64) {
        let Some(ending) = self.table.get_mut(key) else {
            return;
        };
        if ending.drop_more(now) {
            drop(self.table.try_remove(key));
            return;
        }
        let until = ending.until();
        self.times.put(key, second_after(until));
    }

    // Closes the connections whose time is over.
    pub fn close_due(&mut self, now: u64) {
        for _ in 0..u64::MAX {
            match self.times.pop(second_of(now)) {
                Some(key) => self.go_on(key, now),
                None => return,
            }
        }
    }

    // The first second at which one is closed.
    pub fn next_due(&self) -> Option<u64> {
        self.times.next_due()
    }
}

// Whether more may come of a connection, once what has come is dropped, and that is told under a key.
fn is_watched(watch: &Watch, ending: &mut Ending<TcpStream>, key: usize, now: u64) -> bool {
    !ending.drop_more(now)
        && watch
            .renew(&mut ending.stream, Watched::Ending(key))
            .is_ok()
}
