//! A socket as a link that doesn't wait.
ghost use Rattle.std.specs.Prelude.{◌≡◌, ◌<◌, length, None, IfOk, true};
ghost use Rattle.dev_net.specs.Patience.{hurried_at};
ghost use Rattle.dev_net.specs.Taking.{TakesInTime};
ghost use Rattle.dev_std.specs.Moving.{Sends};
ghost use Rattle.dev_traits.specs.Cause.{HasCause};
ghost use Rattle.dev_traits.specs.Link.{SendsWithin, TakesWithin};

use crate::patience::{Pace, Patience};
use crate::socket::Socket;
use dev_std::{present, put_now, take_now};
use dev_traits::{Failed, Link, Sent, Taken, count_fault};
use mio::net::TcpStream;
use std::rt;

// Whether the last call of a link would have waited.
#[derive(Clone, Copy)]
enum Waits {
    No,
    Yes,
    // It wasn't made. The take before had room for more than there was.
    Surely,
}

/// A link over a socket, whose peer is waited for only so long. A take that would wait says the end of input once no
/// byte was put for that long, so a peer that is silent ends, and one that sends a byte now and then. A put that would
/// wait fails once the peer took nothing for that long, or too little.
#[derive(Drop)]
pub struct PolledLink<S: Socket + Drop, R: rt::Clock + Drop> {
    pub stream: S,
    rt: R,
    patience: Patience,
    pace: Pace,
    waits: Waits,
    // whether the last take had room for more than there was
    is_drained: bool,
    // whether no further request is waited for
    hurries: bool,
    faults: u64,
}

/// A link over a socket of the machine.
pub type TcpLink<R> = PolledLink<TcpStream, R>;

impl<S: Socket + Drop, R: rt::Clock + Drop> PolledLink<S, R> {
    /// A link that comes at this moment, in milliseconds of the clock. No call has failed.
    pub fn new(rt: R, stream: S, now: u64, patience: Patience) -> PolledLink<S, R>
        ensures stream { result.stream ≡ stream }
        ensures shown { ⟦<PolledLink<S, R> as Link>⟧.shown result ≡ record { held = None; faults = 0 } }
    {
        PolledLink {
            stream,
            rt,
            patience,
            pace: Pace::new(now),
            waits: Waits::No,
            is_drained: false,
            hurries: false,
            faults: 0,
        }
    }

    /// It waits for no further request: a take that would wait says the end of input from now on.
    pub fn hurry(&mut self)
        ensures { self.new ≡ record self.old { hurries = true } }
    {
        self.hurries = true;
    }

    /// Whether the last call would have waited. One that wasn't made would have if the peer's side was open before it:
    /// its end is no byte, and its event may have come already.
    pub(crate) fn waits(&self, is_open: bool) -> bool {
        match self.waits {
            Waits::No => false,
            Waits::Yes => true,
            Waits::Surely => is_open,
        }
    }

    /// The link rests, and its events count from now on. One that rests again before its next call missed one of them,
    /// so it is as one that doesn't wait.
    pub(crate) fn rested(&mut self)
        ensures { ⟦<PolledLink<S, R> as Link>⟧.shown self.new ≡ ⟦<PolledLink<S, R> as Link>⟧.shown self.old }
    {
        self.waits = Waits::No;
        self.is_drained = false;
    }

    /// The moment at which its time is over, if nothing moves until then.
    pub fn due(&self) -> u64
        ensures { result ≡ hurried_at self.now.hurries self.now.patience self.now.pace }
    {
        if self.hurries && self.pace.sending.is_none() {
            return 0;
        }
        self.patience.due(self.pace)
    }

    // Whether its time is over.
    fn is_over(&self) -> bool {
        self.due() <= present(&self.rt)
    }

    // Whether a take finds nothing, since the one before it had room for more than there was.
    fn is_empty(&self) -> bool {
        self.is_drained && !self.is_over()
    }

    // The stream, of a link that has ended.
    pub(crate) fn into_stream(self) -> S {
        let PolledLink { stream, .. } = self;
        stream
    }
}

#[tactic(auto, using(dev_std::proofs::StreamLemmas::known))]
impl<S: Socket + Drop, R: rt::Clock + Drop> Link for PolledLink<S, R> {
    ghost shown = { λ link. record { held = None; faults = link.faults } };

    fn faults(&self) -> u64 {
        self.faults
    }

    fn take(&mut self, buf: &mut [u8]) -> Result<Taken, Failed>
        requires { 0 < length buf.old }
        ensures within { IfOk result (TakesWithin (length buf.old)) }
        ensures cause { HasCause self.old.faults self.new.faults result }

        // Where the stream's bytes are known, the next ones were taken.
        ensures bytes { TakesInTime (S.remaining self.old.stream) (S.remaining self.new.stream) buf.new result }
    {
        self.pace = self.pace.taking();
        let is_empty = self.is_empty();
        self.is_drained = false;
        if is_empty {
            self.waits = Waits::Surely;
            return Ok(Taken::Later);
        }
        self.waits = Waits::No;
        match take_now(&mut self.stream, buf) {
            Ok(Taken::Bytes(count)) => {
                self.is_drained = count < buf.len();
                Ok(Taken::Bytes(count))
            }
            Ok(Taken::Later) if !self.is_over() => {
                self.waits = Waits::Yes;
                Ok(Taken::Later)
            }
            Ok(Taken::End | Taken::Later) => Ok(Taken::End),
            Err(Failed) => Err(count_fault(&mut self.faults)),
        }
    }

    fn put(&mut self, bytes: &[u8]) -> Result<Sent, Failed>
        ensures within { IfOk result (SendsWithin (length bytes.now)) }
        ensures cause { HasCause self.old.faults self.new.faults result }

        // Where the stream's bytes are known, just these were appended to them.
        ensures bytes { Sends (S.contents self.old.stream) (S.contents self.new.stream) bytes.now result }
    {
        let now = present(&self.rt);
        self.pace = self.pace.putting(now);
        self.waits = Waits::No;
        match put_now(&mut self.stream, bytes) {
            Ok(Sent::Bytes(count)) => {
                self.pace = self.pace.put(now, count as u64);
                Ok(Sent::Bytes(count))
            }
            Ok(Sent::Later) if now < self.due() => {
                self.waits = Waits::Yes;
                Ok(Sent::Later)
            }
            Ok(Sent::Later) | Err(Failed) => Err(count_fault(&mut self.faults)),
        }
    }
}
