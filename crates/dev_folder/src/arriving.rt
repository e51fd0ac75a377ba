//! What arrives next in a folder.

use crate::held_back::MINUTE;
use crate::inbox::FolderInbox;
use crate::listing::{Names, names_inside};
use dev_std::{Event, Tell, present};
use dev_traits::Arrival;
use std::alloc::Global;
use std::io::{self, Error};
use std::mem::replace;
use std::time::Duration;
use std::{rt, thread};

// For how many milliseconds nothing is looked for where nothing arrived.
const PAUSE: u64 = 125;

impl<R: rt::Files + rt::Clock + Drop, T: Tell + Drop> FolderInbox<R, T> {
    // What arrives next.
    pub(crate) fn arrival(&mut self, alloc: Global) -> io::Result<Arrival> {
        if let Some(name) = self.offers.next(&mut self.mover, alloc)? {
            return Ok(Arrival::Name(name));
        }
        let is_stopped = self.list(alloc)?;
        match self.offers.next(&mut self.mover, alloc)? {
            Some(name) => Ok(Arrival::Name(name)),
            None => {
                self.stop.set(is_stopped);
                Ok(self.rest())
            }
        }
    }

    // Lists the folder, once the moves that failed are made again. Returns whether a file `STOP` lies there.
    fn list(&mut self, alloc: Global) -> io::Result<bool> {
        let now = present(&self.mover.rt);
        self.move_again(now);
        self.bring_back(alloc, now);
        // What came before the file that stops it lies in a listing that is made after that was seen.
        let is_stopped = self.mover.file_at("STOP")?.is_some();
        self.list_names(alloc, now)?;
        self.see_read();
        Ok(is_stopped)
    }

    // Makes the moves again that failed.
    fn move_again(&mut self, now: u64) {
        match self.mover.move_again(&mut self.offers.held_back) {
            Some(error) => self.move_failed(error, now),
            None => {
                if self.troubles.moving.works() {
                    self.say(Event::plain("working", "all files are moved"));
                }
            }
        }
    }

    // Brings back what waits for room, where it is time.
    fn bring_back(&mut self, alloc: Global, now: u64) {
        if let Some(due) = self.later
            && due <= now
        {
            self.later = match self.mover.bring_back(alloc) {
                Ok(false) => None,
                Ok(true) | Err(_) => Some(now.saturating_add(MINUTE)),
            };
        }
    }

    // Says that a file can't be moved, where that is to be said.
    pub(crate) fn move_failed(&mut self, error: Error, now: u64) {
        if self.troubles.moving.fails(now)
            && let Some(name) = self.offers.held_back.first(true)
        {
            self.say(Event::failing(name.as_bytes(), " can't be moved", error));
        }
    }

    // Lists the names in the folder. The files that are offered are the next batch.
    fn list_names(&mut self, alloc: Global, now: u64) -> io::Result<()> {
        let Names { offered, mistaken } = names_inside(&self.mover, alloc, "")?;
        self.say_mistaken(mistaken);
        self.offers.list(&mut self.mover, offered, now)?;
        if self.troubles.listing.works() {
            self.say(Event::plain("working", "it is listed again"));
        }
        Ok(())
    }

    // Says that files can be read again, once none is left that couldn't be. One that is tried again may still be one.
    fn see_read(&mut self) {
        if !self.offers.has_unread() && self.troubles.reading.works() {
            self.say(Event::plain("working", "all files are read"));
        }
    }

    // Says of each name of a listing that it isn't offered, unless that was said when it was listed before.
    fn say_mistaken(&mut self, names: Vec<Vec<u8>>) {
        let mut names = names;
        names.sort_unstable();
        for name in names.as_slice() {
            if self.mistaken.as_slice().binary_search(name).is_err() {
                self.say(Event::passed_over(name.as_slice(), " isn't offered"));
            }
        }
        drop(replace(&mut self.mistaken, names));
    }

    // What arrives where it isn't known what lies in the folder.
    pub(crate) fn unlisted(&mut self, error: Error) -> Arrival {
        if self.troubles.listing.fails(present(&self.mover.rt)) {
            self.say(Event::failing(b"", "it can't be listed", error));
        }
        self.rest()
    }

    // Nothing yet, after a pause, or nothing any more.
    fn rest(&self) -> Arrival {
        if self.stop.stops.is_over() {
            return Arrival::Done;
        }
        thread::sleep(&self.mover.rt, Duration::from_millis(PAUSE));
        Arrival::Idle
    }
}
