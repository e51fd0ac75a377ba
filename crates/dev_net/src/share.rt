//! How the links that come together are shared among the doors at one socket.
ghost use Rattle.std.specs.Prelude.{◌≡◌, ◌<◌, nat_lt};
ghost use Rattle.dev_net.specs.Share.{are_few, due_with, first_share, renewed_at, taken_at};

/// The most links that come to a door between two of its waits, so that those that are out go on.
pub const MOST_AT_ONCE: usize = 16;

/// How many links may come to a door before its next wait: as many as are out, but one at least and 16 at most. Where
/// few are out, those that come behind them are left to the other doors at the socket for the rest of the millisecond.
#[derive(Clone, Copy)]
pub struct Share {
    /// how many may still come
    pub left: usize,
    /// the moment at which none was left
    pub spent: u64,
}

impl Share {
    /// That of a door that has no link.
    pub fn new() -> Share
        ensures { result ≡ first_share }
    {
        Share { left: 1, spent: 0 }
    }

    /// Whether a link may come.
    pub fn is_left(&self) -> bool
        ensures { result ≡ nat_lt 0 self.now.left }
    {
        0 < self.left
    }

    /// A link comes at this moment, in milliseconds.
    pub fn take(&mut self, now: u64)
        ensures { self.new ≡ taken_at self.old now }
    {
        self.left = self.left.saturating_sub(1);
        if self.left == 0 {
            self.spent = now;
        }
    }

    /// A wait has ended at this moment, with so many links out.
    pub fn renew(&mut self, out: usize, now: u64)
        ensures { self.new ≡ renewed_at self.old out now }
    {
        self.left = if are_few(out) && now == self.spent {
            0
        } else {
            out.clamp(1, MOST_AT_ONCE)
        };
    }

    /// The moment of the accept that is due at this one, with so many links out.
    pub fn due(&self, out: usize, moment: u64) -> u64
        ensures { result ≡ due_with self.now out moment }
    {
        if are_few(out) {
            return moment.max(self.spent.saturating_add(1));
        }
        moment
    }
}

// Whether some links are out, but few.
fn are_few(out: usize) -> bool
    ensures { result ≡ are_few out }
{
    0 < out && out < MOST_AT_ONCE
}
