//! How long a peer is waited for.
ghost use Rattle.std.specs.Prelude.{◌≡◌, None, Some};
ghost use Rattle.dev_net.specs.Patience.{begun_at, due_at, put_at};

/// How long a peer is waited for, in milliseconds.
#[derive(Clone, Copy)]
pub struct Patience {
    /// For its next byte, since the last put or since the link came; and for the peer to take a byte of what is sent.
    pub idle: u64,
    /// For how long what is sent may be slower than the least rate.
    pub grace: u64,
}

impl Patience {
    /// The patience of a server: half a minute for a byte, and a minute for a slow one.
    pub fn of_server() -> Patience
        ensures { result ≡ record { idle = 30_000; grace = 60_000 } }
    {
        Patience {
            idle: 30_000,
            grace: 60_000,
        }
    }

    /// The moment at which the time of a link is over, if nothing moves until then.
    pub fn due(self, pace: Pace) -> u64
        ensures { result ≡ due_at self pace }
    {
        let silent = pace.since.saturating_add(self.idle);
        match pace.sending {
            None => silent,
            Some(sending) => silent.min(
                sending
                    .began
                    .saturating_add(self.grace.max(sending.sent / LEAST_RATE + 1)),
            ),
        }
    }
}

// How many bytes of what is sent have to go in a millisecond, in the mean.
const LEAST_RATE: u64 = 16;

/// Replies that are sent without a take between them: when that began, and how many bytes have gone.
#[derive(Clone, Copy)]
pub struct Sending {
    pub began: u64,
    pub sent: u64,
}

/// The moments of a link, in milliseconds of one clock.
#[derive(Clone, Copy)]
pub struct Pace {
    /// When a put sent something last, or what is sent was begun, or the link came.
    pub since: u64,
    pub sending: Option<Sending>,
}

impl Pace {
    /// The link comes.
    pub fn new(now: u64) -> Pace
        ensures { result ≡ record { since = now; sending = None } }
    {
        Pace {
            since: now,
            sending: None,
        }
    }

    /// A take: what was sent is sent whole.
    pub fn taking(self) -> Pace
        ensures { result ≡ record self { sending = None } }
    {
        Pace {
            since: self.since,
            sending: None,
        }
    }

    /// A put, which goes on with what is sent, or begins it.
    pub fn putting(self, now: u64) -> Pace
        ensures { result ≡ begun_at self now }
    {
        match self.sending {
            Some(_) => self,
            None => Pace {
                since: now,
                sending: Some(Sending {
                    began: now,
                    sent: 0,
                }),
            },
        }
    }

    /// A put that sent bytes.
    pub fn put(self, now: u64, count: u64) -> Pace
        ensures { result ≡ put_at self now count }
    {
        let sending = match self.sending {
            Some(sending) => Some(Sending {
                began: sending.began,
                sent: sending.sent.saturating_add(count),
            }),
            None => None,
        };
        Pace {
            since: now,
            sending,
        }
    }
}
