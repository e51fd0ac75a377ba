//! A door at which the machine's sockets are accepted.
ghost use Rattle.std.specs.Prelude.{◌≡◌, ◌≢◌, None, IfOk, IfSome, IsFalse, IsTrue, OnErr};
ghost use Rattle.dev_traits.specs.Cause.{HasCause};
ghost use Rattle.dev_traits.specs.Door.{IfCame, IsFresh};
ghost use Rattle.dev_net.specs.Remaining.{ComesOf, CountsDown, MayClose, remaining_of};

use crate::entry::News;
use crate::link::TcpLink;
use crate::patience::Patience;
use crate::reactor::Reactor;
use crate::remaining::Remaining;
use crate::voice::Voice;
use dev_std::{Stops, Tell, counted, present};
use dev_traits::{Coming, Door, Failed, Link};
use mio::net::TcpStream;
use std::alloc::Global;
use std::marker::Send;
use std::mem::replace;
use std::net::{Net, SocketAddr, TcpListener};
use std::{io, rt};

/// A door at a socket that listens, through which many links come at once. Several doors may share one socket: each
/// connection comes to one of them. One without end takes no more links once taking in is over, lets the replies end
/// that are under way, and closes.
#[derive(Drop)]
pub struct TcpDoor<R: rt::Clock + Clone + Drop, T: Tell + Drop> {
    rt: R,
    remaining: Remaining,
    patience: Patience,
    stops: Stops,
    // whether the links that rest were stepped once more since taking in is over
    has_hurried: bool,
    reactor: Reactor,
    // what tells that connections can't be taken
    voice: Option<Voice<T>>,
    faults: u64,
}

impl<R: rt::Clock + Net + Clone + Drop, T: Tell + Drop> TcpDoor<R, T> {
    /// A door that takes `connections` connections of a listener; 0 is without end. No call has failed.
    pub fn new(
        rt: R,
        alloc: Global,
        listener: TcpListener,
        connections: u32,
        patience: Patience,
        stops: Stops,
    ) -> io::Result<TcpDoor<R, T>>
        ensures faults { IfOk result (λ door. door.faults ≡ 0) }
        ensures remaining { IfOk result (λ door. door.remaining ≡ remaining_of connections) }
        ensures patience { IfOk result (λ door. door.patience ≡ patience) }
    {
        let reactor = Reactor::new(&rt, alloc, listener, present(&rt))?;
        Ok(TcpDoor {
            rt,
            remaining: Remaining::of(connections),
            patience,
            stops,
            has_hurried: false,
            reactor,
            voice: None,
            faults: 0,
        })
    }
}

impl<R: rt::Clock + Clone + Drop, T: Tell + Drop> TcpDoor<R, T> {
    /// The same door, which tells by this that connections can't be taken.
    pub fn telling(self, voice: Option<Voice<T>>) -> TcpDoor<R, T>
        ensures faults { result.faults ≡ self.faults }
        ensures patience { result.patience ≡ self.patience }
    {
        let mut door = self;
        drop(replace(&mut door.voice, voice));
        door
    }

    /// The address at which it listens.
    pub fn local_addr(&self) -> io::Result<SocketAddr> {
        self.reactor.entry.listener.local_addr()
    }

    // Whether taking in is over, and links would come without end.
    fn is_stopped(&self) -> bool
        ensures { IsTrue result → self.now.remaining ≡ Remaining.Endless }
    {
        matches!(self.remaining, Remaining::Endless) && self.stops.is_over()
    }

    // Has each link that rests stepped once more where taking in is over, so that those between two requests end.
    fn hurry(&mut self)
        ensures faults { self.new.faults ≡ self.old.faults }
        ensures remaining { self.new.remaining ≡ self.old.remaining }
    {
        if !self.has_hurried && self.is_stopped() {
            self.has_hurried = true;
            self.reactor.times.hurry();
        }
    }

    // Whether no link comes any more.
    fn is_over(&self) -> bool
        ensures over { IsTrue result → MayClose self.now.remaining }
        ensures open { IsFalse result → self.now.remaining ≢ Remaining.Times 0 }
    {
        self.remaining.is_over() || self.is_stopped()
    }

    // The stream of the next link, where one comes without waiting. It tells what is to be said of the accepts.
    fn next_stream(&mut self, key: usize, now: u64) -> Result<Option<TcpStream>, Failed>
        ensures faults { self.new.faults ≡ self.old.faults }
        ensures remaining { self.new.remaining ≡ self.old.remaining }
    {
        let stream = self.reactor.next_stream(key, now);
        tell_news(&mut self.reactor.entry.news, self.voice.as_ref());
        stream
    }

    // The next link, where one comes without waiting.
    fn next_link(&mut self, key: usize) -> Result<Option<TcpLink<R>>, Failed>
        ensures faults { self.new.faults ≡ self.old.faults }
        ensures fresh { IfOk result (λ found. IfSome found (λ link. IsFresh (⟦<TcpLink<R> as Link>⟧.shown link))) }
        ensures remaining { IfOk result (ComesOf self.old.remaining self.new.remaining) }
        ensures err { OnErr result (self.new.remaining ≡ self.old.remaining) }
    {
        if self.is_over() {
            return Ok(None);
        }
        let Ok(rt) = self.rt.clone() else {
            return Err(Failed);
        };
        let now = present(&rt);
        match self.next_stream(key, now) {
            Ok(Some(stream)) => {
                self.remaining = self.remaining.one_less();
                Ok(Some(TcpLink::new(rt, stream, now, self.patience)))
            }
            Ok(None) => {
                drop(rt);
                Ok(None)
            }
            Err(Failed) => {
                drop(rt);
                Err(Failed)
            }
        }
    }

    // Waits for what comes next.
    fn next_coming(&mut self, key: usize) -> Result<Coming<TcpLink<R>>, Failed>
        ensures faults { self.new.faults ≡ self.old.faults }
        ensures fresh { IfOk result (IfCame (λ link. IsFresh (⟦<TcpLink<R> as Link>⟧.shown link))) }
        ensures remaining { IfOk result (CountsDown self.old.remaining self.new.remaining) }
        ensures err { OnErr result (self.new.remaining ≡ self.old.remaining) }
    {
        'waits: for _ in 0..u64::MAX {
            self.hurry();
            if let Some(ready) = self.reactor.next_ready() {
                return Ok(Coming::Ready(ready));
            }
            if let Some(link) = self.next_link(key)? {
                return Ok(Coming::Came(link));
            }
            if self.is_over() && self.reactor.is_empty() {
                return Ok(Coming::Closed);
            }
            let accepts = !self.is_over();
            self.reactor.wait(&self.rt, accepts)?;
        }
        Err(Failed)
    }
}

impl<R: rt::Clock + Clone + Drop + Send, T: Tell + Drop + Send> Door for TcpDoor<R, T> {
    type L = TcpLink<R>;

    ghost shown = { λ door. record { held = None; faults = door.faults } };

    fn faults(&self) -> u64 {
        self.faults
    }

    fn next(&mut self, key: usize) -> Result<Coming<TcpLink<R>>, Failed>
        ensures fresh { IfOk result (IfCame (λ link. IsFresh (⟦<TcpLink<R> as Link>⟧.shown link))) }
        ensures cause { HasCause self.old.faults self.new.faults result }

        // Each link that comes is one less, and a door of a number of links closes only where none is left.
        ensures remaining { IfOk result (CountsDown self.old.remaining self.new.remaining) }
        ensures err { OnErr result (self.new.remaining ≡ self.old.remaining) }
    {
        let coming = self.next_coming(key);
        counted(&mut self.faults, coming)
    }

    fn rest(&mut self, key: usize, link: &mut TcpLink<R>) {
        if self.is_stopped() {
            link.hurry();
        }
        let waits = link.waits(self.reactor.is_open(key));
        let due = link.due();
        link.rested();
        self.reactor.rest(key, &mut link.stream, waits, due);
    }

    fn done(&mut self, _key: usize, link: TcpLink<R>) {
        self.reactor.end(link.into_stream(), present(&self.rt));
    }
}

// Tells what is to be said of the accepts.
fn tell_news<T: Tell + Drop>(news: &mut Option<News>, voice: Option<&Voice<T>>) {
    if let Some(news) = news.take()
        && let Some(voice) = voice
    {
        voice.say(news.event());
    }
}
