//! The clock of the machine.
ghost use Rattle.std.specs.Prelude.{◌≡◌, ◌≢◌, None, IfSome};
ghost use Rattle.dev_net.specs.Remaining.{one_less, remaining_of};

use crate::moment::Moment;
use crate::notice::tell_skipped;
use dev_net::Remaining;
use dev_std::{Event, Stops, Tell, tell_of};
use dev_traits::{Clock, Expiry};
use std::marker::Send;
use std::time::Duration;
use std::{rt, thread};

// For how many seconds a clock waits before it looks whether taking in is over.
const STEP: u64 = 1;

/// A clock that gives the present moment at once, and then after each interval. Where the machine's clock was set since
/// the last one by over an hour, the moment is skipped. One without end ends once taking in is over. Its lines go to a
/// teller; verdicts are dropped.
#[derive(Drop)]
pub struct RealClock<R: rt::Clock + Drop, T: Tell + Drop> {
    // none where memory ran out as the clock was opened
    rt: Option<R>,
    tell: Option<T>,
    interval: Duration,
    remaining: Remaining,
    // the last moment that was read
    last: Option<Moment>,
    stops: Option<Stops>,
}

impl<R: rt::Clock + Drop, T: Tell + Drop> RealClock<R, T> {
    /// A clock that gives at most `ticks` moments; 0 is without end.
    pub fn new(rt: R, tell: T, ticks: u32, interval: Duration) -> RealClock<R, T>
        ensures { result.remaining ≡ remaining_of ticks }
    {
        RealClock::of(Some(rt), Some(tell), ticks, interval, None)
    }

    // The same, which ends with these stops where it is without end. Without a machine it gives no moment, and
    // without a teller its lines are lost.
    pub(crate) fn of(
        rt: Option<R>,
        tell: Option<T>,
        ticks: u32,
        interval: Duration,
        stops: Option<Stops>,
    ) -> RealClock<R, T>
        ensures { result.remaining ≡ remaining_of ticks }
    {
        RealClock {
            rt,
            tell,
            interval,
            remaining: Remaining::of(ticks),
            last: None,
            stops,
        }
    }

    /// What takes its lines.
    pub fn teller(&self) -> Option<&T> {
        self.tell.as_ref()
    }

    // Whether taking in is over, and moments would come without end.
    fn is_stopped(&self) -> bool {
        match &self.stops {
            Some(stops) => matches!(self.remaining, Remaining::Endless) && stops.is_over(),
            None => false,
        }
    }

    // Waits for the next moment, unless it comes no more.
    fn wait(&self) {
        let Some(rt) = &self.rt else {
            return;
        };
        let mut left = self.interval;
        for _ in 0..u64::MAX {
            if left.is_zero() || self.is_stopped() {
                return;
            }
            let step = left.min(Duration::from_secs(STEP));
            thread::sleep(rt, step);
            left = left.saturating_sub(step);
        }
    }

    // The present moment, where it can be read. It is told where it can't.
    fn read(&self) -> Option<Moment> {
        match Moment::now(self.rt.as_ref()?) {
            Ok(moment) => Some(moment),
            Err(error) => {
                let text = "it can't be read, and no run goes any more";
                tell_of(&self.tell, "clock", Event::failing(b"", text, error));
                None
            }
        }
    }

    // The next moment to which the machine's clock didn't jump, unless none comes any more.
    fn next_moment(&mut self) -> Option<Moment>
        ensures { self.new.remaining ≡ self.old.remaining }
    {
        'moments: for _ in 0..u64::MAX {
            if self.last.is_some() {
                self.wait();
            }
            if self.is_stopped() {
                return None;
            }
            let now = self.read()?;
            let last = self.last.replace(now).unwrap_or(now);
            match now.jump_since(last) {
                Some(jump) => tell_skipped(&self.tell, jump),
                None => return Some(now),
            }
        }
        None
    }
}

impl<R: rt::Clock + Drop + Send, T: Tell + Drop + Send> Clock for RealClock<R, T> {
    ghost shown = { λ _. None };

    /// `None` too where the machine's clock can't be read.
    fn next(&mut self) -> Option<i64>
        // No more moments come than there are ticks.
        ensures ticks { IfSome result (λ _. (self.old.remaining ≢ Remaining.Times 0)
            × (self.new.remaining ≡ one_less self.old.remaining)) }
    {
        if self.remaining.is_over() {
            return None;
        }
        let moment = self.next_moment()?;
        self.remaining = self.remaining.one_less();
        moment.seconds()
    }

    fn settle(&mut self, _verdict: Expiry) {}

    fn note(&mut self, line: &[&[u8]]) {
        self.tell.tell(line);
    }
}
