//! The end of a connection.
ghost use Rattle.std.specs.Prelude.{◌≤◌};

use crate::socket::Socket;
use dev_std::take_now;
use dev_traits::Taken;

/// How many bytes are dropped at most at the end of a connection.
pub const DROPPED_AT_MOST: usize = 65_536;

/// For how many milliseconds a peer is waited for at the end of a connection, to close its side.
pub const LINGER: u64 = 2_000;

/// A connection that has ended, of which what still comes is dropped. Were a socket closed with bytes unread, the
/// system would send a reset, which can destroy a reply that is on its way.
#[derive(Drop)]
pub struct Ending<S: Socket + Drop> {
    pub stream: S,
    left: usize,
    until: u64,
    ghost most: { left ≤ 65_536 },
}

impl<S: Socket + Drop> Ending<S> {
    /// Ends a connection: the side that sends is closed first, so that what was put last reaches the peer.
    pub fn new(stream: S, now: u64) -> Ending<S> {
        let _ = stream.end_sending();
        Ending {
            stream,
            left: DROPPED_AT_MOST,
            until: now.saturating_add(LINGER),
        }
    }

    /// When the connection is closed at the latest.
    pub fn until(&self) -> u64 {
        self.until
    }

    /// Drops what has come, at most 65,536 bytes in all. `true` says that the socket is to be closed: the peer has
    /// closed its side, the connection has failed, enough was dropped, or its time is over.
    pub fn drop_more(&mut self, now: u64) -> bool
        ensures { self.new.left ≤ self.old.left }
    {
        let mut buf = [0u8; 4096];
        'rest: while self.left > 0 {
            let (room, _) = buf.split_at_mut(self.left.min(4096));
            match take_now(&mut self.stream, room) {
                Ok(Taken::Bytes(count)) => self.left -= count,
                Ok(Taken::Later) => return self.until <= now,
                Ok(Taken::End) | Err(_) => return true,
            }
        }
        true
    }
}
