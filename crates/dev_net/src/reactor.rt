//! What the links of a door wait for.
ghost use Rattle.std.specs.Prelude.{◌≡◌};

use crate::endings::Endings;
use crate::entry::Entry;
use crate::share::Share;
use crate::socket::Socket;
use crate::watching::{Watch, Watched};
use crate::wheel::{Wheel, second_after, second_of};
use dev_std::present;
use dev_traits::Failed;
use mio::net::{TcpListener, TcpStream};
use std::alloc::Global;
use std::net::{self, Net};
use std::{io, rt};

// For how many milliseconds a wait lasts at most, so that it is seen soon that taking in is over.
const LONGEST: u64 = 1_000;

// What the links of a door wait for, and what still comes of those that were given back.
#[derive(Drop)]
pub(crate) struct Reactor {
    pub entry: Entry<TcpListener>,
    watch: Watch,
    // when each link is to be stepped at the latest, since its time may be over
    pub times: Wheel,
    out: usize,
    // the link that was told last, where that is by an event, and its peer's side was open then
    open: Option<usize>,
    endings: Endings,
    // the moment of the last wait
    now: u64,
    // how many links may come before the next wait
    share: Share,
}

impl Reactor {
    // The listener doesn't wait from now on.
    pub fn new(
        net: &impl Net,
        alloc: Global,
        listener: net::TcpListener,
        now: u64,
    ) -> io::Result<Reactor> {
        listener.set_nonblocking(true)?;
        let mut listener = TcpListener::from_std(listener);
        match watch_of(net, alloc, &mut listener) {
            Ok(watch) => Ok(Reactor::of(listener, watch, alloc, now)),
            Err(error) => {
                drop(listener);
                Err(error)
            }
        }
    }

    // No link is out.
    fn of(listener: TcpListener, watch: Watch, alloc: Global, now: u64) -> Reactor {
        Reactor {
            entry: Entry::new(listener),
            watch,
            times: Wheel::new(alloc, second_of(now)),
            out: 0,
            open: None,
            endings: Endings::new(alloc, now),
            now,
            share: Share::new(),
        }
    }

    // The key of a link that may go on, where one is known without waiting.
    pub fn next_ready(&mut self) -> Option<usize> {
        for _ in 0..u64::MAX {
            let Some(told) = self.watch.next() else {
                break;
            };
            match told.watched {
                Watched::Link(key) => {
                    self.open = if told.is_over { None } else { Some(key) };
                    return Some(key);
                }
                Watched::Ending(key) => self.endings.go_on(key, self.now),
                Watched::Listener => self.entry.wake(),
            }
        }
        self.open = None;
        self.endings.close_due(self.now);
        self.times.pop(second_of(self.now))
    }

    // Whether the peer's side of the link of a key was open as the link was told.
    pub fn is_open(&self, key: usize) -> bool {
        match self.open {
            Some(open) => open == key,
            None => false,
        }
    }

    // The stream of the next link, which then is out under this key, where one comes without waiting. One that can't be
    // set up is dropped.
    pub fn next_stream(&mut self, key: usize, now: u64) -> Result<Option<TcpStream>, Failed> {
        if !self.share.is_left() {
            return Ok(None);
        }
        if self.make_room(key).is_err() {
            self.entry.pause(now);
            return Ok(None);
        }
        let Some(mut stream) = self.entry.next_stream(now)? else {
            return Ok(None);
        };
        self.share.take(now);
        if set_up(&self.watch, &mut stream, key).is_err() {
            drop(stream);
            return Ok(None);
        }
        self.out = self.out.saturating_add(1);
        // It is watched before it is read from, so that its first event says whether its peer's side is open.
        self.open = Some(key);
        Ok(Some(stream))
    }

    // Makes room for one more link, and for its end.
    fn make_room(&mut self, key: usize) -> Result<(), Failed> {
        let count = self.out.saturating_add(1);
        if self.times.make_room(key).is_err() || self.endings.make_room(count).is_err() {
            return Err(Failed);
        }
        Ok(())
    }

    // Whether none is out, and each that was given back is closed.
    pub fn is_empty(&self) -> bool {
        self.out == 0 && self.endings.is_empty()
    }

    // Waits until something may have come. Links that come are waited for where `accepts` says so. It fails too where
    // the listener has failed, and no link is out.
    pub fn wait<C: rt::Clock>(&mut self, clock: &C, accepts: bool) -> Result<(), Failed> {
        if self.out == 0 && self.entry.has_failed() {
            return Err(Failed);
        }
        let limit = self
            .due(accepts)
            .saturating_sub(present(clock))
            .min(LONGEST);
        self.give_back();
        let waited = self.watch.wait(limit);
        self.now = present(clock);
        self.share.renew(self.out, self.now);
        match waited {
            Ok(()) => Ok(()),
            Err(_) => Err(Failed),
        }
    }

    // Gives back the room for links where none is out, and for connections that have ended where each is closed too:
    // a link that is out has its room there already.
    fn give_back(&mut self) {
        if self.out == 0 {
            self.times.clear();
            self.endings.give_back();
        }
    }

    // The moment at which something is due that no event tells.
    fn due(&self, accepts: bool) -> u64 {
        let second = self.times.next_due().unwrap_or(u64::MAX);
        let second = second.min(self.endings.next_due().unwrap_or(u64::MAX));
        let due = second.saturating_mul(1000);
        match self.entry.due() {
            Some(moment) if accepts => due.min(self.share.due(self.out, moment)),
            _ => due,
        }
    }

    // Has the link of a key stepped again once there is an event, and at the latest at this moment. One whose time is
    // over and that wasn't stepped comes again in a second.
    pub fn rest(&mut self, key: usize, stream: &mut TcpStream, waits: bool, due: u64)
        ensures { stream.new ≡ stream.old }
    {
        let second = if self.is_watched(key, stream, waits) {
            second_after(due.max(self.now))
        } else {
            second_of(self.now)
        };
        self.times.put(key, second);
    }

    // Whether the link of a key is watched. Where it stopped before it had to wait, no event comes for what was ready
    // before, so it is watched anew.
    fn is_watched(&self, key: usize, stream: &mut TcpStream, waits: bool) -> bool
        ensures { stream.new ≡ stream.old }
    {
        if waits {
            return true;
        }
        self.watch.renew(stream, Watched::Link(key)).is_ok()
    }

    // Ends a connection.
    pub fn end(&mut self, stream: TcpStream, now: u64) {
        self.out = self.out.saturating_sub(1);
        self.endings.end(&self.watch, stream, now);
    }
}

// A watch of a listener.
fn watch_of(net: &impl Net, alloc: Global, listener: &mut TcpListener) -> io::Result<Watch> {
    let watch = Watch::new(net, alloc)?;
    match watch.begin(listener, Watched::Listener) {
        Ok(()) => Ok(watch),
        Err(error) => {
            drop(watch);
            Err(error)
        }
    }
}

// Has a link send at once what is put, and watches it.
fn set_up(watch: &Watch, stream: &mut TcpStream, key: usize) -> io::Result<()> {
    stream.send_at_once()?;
    watch.begin(stream, Watched::Link(key))
}
