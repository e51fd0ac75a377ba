//! The accepts of a listener.
ghost use Rattle.std.specs.Prelude.{◌≡◌};

use crate::accepting::{Accepting, accepting_of};
use crate::socket::Listener;
use dev_std::{Event, Trouble};
use dev_traits::Failed;
use std::io::Error;

// For how many milliseconds no accept is made after one for which the system lacked something.
const PAUSE: u64 = 100;

// When the next accept is made.
#[derive(Clone, Copy)]
enum Next {
    Now,
    // once a connection comes
    Event,
    // from this moment on
    From(u64),
    // The socket is none any more.
    Never,
}

// What is to be said of the accepts. It holds no reference, as an `Event` may, so that none is in a door.
#[derive(Clone, Copy)]
pub(crate) enum News {
    // Connections are taken again.
    Accepted,
    // The system lacks something for one that waits.
    Unaccepted(Error),
}

impl News {
    // What is said.
    pub fn event(self) -> Event<'static> {
        match self {
            News::Accepted => Event::plain("working", "connections are taken again"),
            News::Unaccepted(error) => Event::failing(b"", "no connection can be taken", error),
        }
    }
}

/// The accepts of a listener, which are made when one may give a connection.
#[derive(Drop)]
pub struct Entry<L: Listener + Drop> {
    pub listener: L,
    next: Next,
    trouble: Trouble,
    // what is to be said of it
    pub(crate) news: Option<News>,
}

impl<L: Listener + Drop> Entry<L> {
    /// The first accept is made at once.
    pub fn new(listener: L) -> Entry<L>
        ensures { result.listener ≡ listener }
    {
        Entry {
            listener,
            next: Next::Now,
            trouble: Trouble::none(),
            news: None,
        }
    }

    /// A connection has come, or may have.
    pub fn wake(&mut self)
        ensures { self.new.listener ≡ self.old.listener }
    {
        if matches!(self.next, Next::Event) {
            self.next = Next::Now;
        }
    }

    /// No accept is made for a while.
    pub fn pause(&mut self, now: u64)
        ensures { self.new.listener ≡ self.old.listener }
    {
        self.next = Next::From(now.saturating_add(PAUSE));
    }

    /// From when on the next accept is made, where time alone brings it.
    pub fn due(&self) -> Option<u64> {
        match self.next {
            Next::Now => Some(0),
            Next::From(moment) => Some(moment),
            Next::Event | Next::Never => None,
        }
    }

    /// Whether the listener has failed.
    pub fn has_failed(&self) -> bool {
        matches!(self.next, Next::Never)
    }

    // The system lacked something for a connection.
    fn lacks(&mut self, now: u64, error: Error)
        ensures { self.new.listener ≡ self.old.listener }
    {
        if self.trouble.fails(now) {
            self.news = Some(News::Unaccepted(error));
        }
        self.pause(now);
    }

    /// The next connection, where an accept is due and gives one. It fails once, where the socket is none any more.
    pub fn next_stream(&mut self, now: u64) -> Result<Option<L::Stream>, Failed>
        ensures { self.new.listener ≡ self.old.listener }
    {
        if !self.is_due(now) {
            return Ok(None);
        }
        self.next = Next::Now;
        match self.listener.next_stream() {
            Ok(stream) => {
                self.accepted();
                Ok(Some(stream))
            }
            Err(error) => self.unaccepted(now, error),
        }
    }

    // Whether an accept is due.
    fn is_due(&self, now: u64) -> bool {
        match self.due() {
            Some(moment) => moment <= now,
            None => false,
        }
    }

    // An accept gave a connection.
    fn accepted(&mut self)
        ensures { self.new.listener ≡ self.old.listener }
    {
        if self.trouble.works() {
            self.news = Some(News::Accepted);
        }
    }

    // No connection, after an accept that gave none.
    fn unaccepted(&mut self, now: u64, error: Error) -> Result<Option<L::Stream>, Failed>
        ensures { self.new.listener ≡ self.old.listener }
    {
        match accepting_of(&error) {
            Accepting::Again => {}
            Accepting::Later => self.next = Next::Event,
            Accepting::Short => self.lacks(now, error),
            Accepting::Failed => {
                self.news = Some(News::Unaccepted(error));
                self.next = Next::Never;
                return Err(Failed);
            }
        }
        Ok(None)
    }
}
