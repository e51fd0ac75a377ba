//! What a door watches.

use mio::event::Source;
use mio::unix::SourceFd;
use mio::{Events, Interest, Poll, Token};
use std::alloc::Global;
use std::io;
use std::net::Net;
use std::time::Duration;

// The most events of one wait. A small batch lets accepts come between.
const MOST_EVENTS: usize = 64;

/// What a door watches.
#[derive(Clone, Copy)]
pub enum Watched {
    Listener,
    /// the link of a key
    Link(usize),
    /// the connection of a key, of those that have ended
    Ending(usize),
}

impl Watched {
    /// The token under which it is watched.
    pub fn token(self) -> Token {
        match self {
            Watched::Listener => Token(0),
            Watched::Link(key) => Token(key.saturating_mul(2).saturating_add(1)),
            Watched::Ending(key) => Token(key.saturating_mul(2).saturating_add(2)),
        }
    }

    /// What is watched under a token.
    pub fn of(token: Token) -> Watched {
        let Token(number) = token;
        if number == 0 {
            Watched::Listener
        } else if number % 2 == 1 {
            Watched::Link(number / 2)
        } else {
            Watched::Ending(number / 2 - 1)
        }
    }

    /// What it is watched for. A link goes on where it can take or put something, so it isn't watched anew for each.
    pub fn interest(self) -> Interest {
        match self {
            Watched::Link(_) => Interest::READABLE | Interest::WRITABLE,
            Watched::Listener | Watched::Ending(_) => Interest::READABLE,
        }
    }
}

// What an event tells.
#[derive(Clone, Copy)]
pub(crate) struct Told {
    pub watched: Watched,
    // Whether the peer has closed its side, or the connection has failed.
    pub is_over: bool,
}

// What is watched, and the events of the last wait that were not told yet.
#[derive(Drop)]
pub(crate) struct Watch {
    poll: Poll,
    events: Events,
    told: usize,
}

impl Watch {
    pub fn new(net: &impl Net, alloc: Global) -> io::Result<Watch> {
        let events = Events::with_capacity(alloc, MOST_EVENTS)?;
        match Poll::new(net) {
            Ok(poll) => Ok(Watch {
                poll,
                events,
                told: 0,
            }),
            Err(error) => {
                drop(events);
                Err(error)
            }
        }
    }

    // Watches a source from now on.
    pub fn begin<S: Source>(&self, source: &mut S, watched: Watched) -> io::Result<()>
        ensures { S.keeps source.old source.new }
    {
        self.poll
            .registry()
            .register(source, watched.token(), watched.interest())
    }

    // Watches a source anew, so that what is ready is told again.
    pub fn renew<S: Source>(&self, source: &mut S, watched: Watched) -> io::Result<()>
        ensures { S.keeps source.old source.new }
    {
        self.poll
            .registry()
            .reregister(source, watched.token(), watched.interest())
    }

    // The next event of the last wait. Each is told once.
    pub fn next(&mut self) -> Option<Told> {
        let event = self.events.iter().nth(self.told)?;
        self.told = self.told.saturating_add(1);
        Some(Told {
            watched: Watched::of(event.token()),
            is_over: event.is_read_closed() || event.is_error(),
        })
    }

    // Waits for events, at most `limit` milliseconds.
    pub fn wait(&mut self, limit: u64) -> io::Result<()> {
        self.told = 0;
        self.poll
            .poll(&mut self.events, Some(Duration::from_millis(limit)))
    }

    // Whether a source that isn't watched takes bytes at once.
    pub fn is_writable<S: Source>(&mut self, source: &mut S) -> io::Result<bool> {
        self.poll
            .registry()
            .register(source, Token(0), Interest::WRITABLE)?;
        self.wait(0)?;
        Ok(!self.events.is_empty())
    }
}

/// Whether a descriptor takes bytes at once.
pub fn is_writable<R: Net + AllocGlobal>(rt: &R, descriptor: i32) -> io::Result<bool> {
    let mut watch = Watch::new(rt, rt.alloc())?;
    let is_writable = watch.is_writable(&mut SourceFd(&descriptor));
    drop(watch);
    is_writable
}
