//! Moments of a machine's two clocks, and whether one of them was set between two.
ghost use Rattle.std.specs.Prelude.{◌≡◌};
ghost use Rattle.dev_host.specs.Moment as spec;

use std::{io, rt};

// By how many seconds the two may part from one moment to the next.
const HOUR: u64 = 3_600;

/// A moment in whole seconds: from 1970 by the clock that may be set, and by the one that only goes on.
#[derive(Clone, Copy)]
pub struct Moment {
    pub wall: u64,
    pub steady: u64,
}

/// By how many seconds, over an hour, the clock that may be set jumped.
#[derive(Clone, Copy)]
pub enum Jump {
    Ahead(u64),
    Back(u64),
}

impl Moment {
    /// The present moment.
    pub(crate) fn now<R: rt::Clock>(rt: &R) -> io::Result<Moment> {
        let steady = rt.monotonic()?.as_secs();
        let wall = rt.since_1970()?.as_secs();
        Ok(Moment { wall, steady })
    }

    // Its seconds from 1970, where they aren't too many.
    pub(crate) fn seconds(self) -> Option<i64> {
        i64::try_from(self.wall).ok()
    }

    // What the clock that may be set would show, had it gone on as the other one since an earlier moment.
    fn expected_after(self, earlier: Moment) -> u64
        ensures { result ≡ spec.expected_after earlier self }
    {
        let passed = self.steady.saturating_sub(earlier.steady);
        earlier.wall.saturating_add(passed)
    }

    /// How the clock that may be set jumped since an earlier moment, where that is over an hour.
    pub fn jump_since(self, earlier: Moment) -> Option<Jump>
        ensures { result ≡ spec.jump_between earlier self }
    {
        let expected = self.expected_after(earlier);
        let ahead = self.wall.saturating_sub(expected);
        let back = expected.saturating_sub(self.wall);
        if HOUR < ahead {
            Some(Jump::Ahead(ahead))
        } else if HOUR < back {
            Some(Jump::Back(back))
        } else {
            None
        }
    }
}
