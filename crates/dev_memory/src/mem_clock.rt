//! A clock in memory.
ghost use Rattle.std.specs.Prelude.{◌≡◌, ◌+◌, ◌≤◌, [], IfOk, IfSome, Some, drop, length, option_map, true, if◌then◌else◌, vec_capacity, vec_len};
ghost use Rattle.dev_traits.specs.Clock.{clock_lines, fresh_moments};
ghost use Rattle.dev_traits.specs.Opener.{clock_asked};

use crate::lines::Lines;
use dev_traits::{Clock, Expiry};
use fm_base::{Bytes, List, NoMemory};
use std::alloc::Global;

/// A clock in memory, with the moments that are to come and room for a verdict on each. It keeps its lines, as long as
/// memory lasts.
#[derive(Drop)]
pub struct MemClock {
    alloc: Global,
    asked: Option<u32>,
    moments: List<i64>,
    given: usize,
    waits: bool,
    verdicts: Vec<Expiry>,
    lines: Lines,
    ghost within: { given ≤ length moments },
    ghost room: { vec_len verdicts + (if waits then 1 else 0) ≤ given },
    ghost slots: { length moments ≤ vec_capacity verdicts },
}

impl MemClock {
    /// A clock with these moments to come, in seconds from 1970.
    pub fn new(alloc: Global, moments: List<i64>) -> Result<MemClock, NoMemory>
        ensures { IfOk result (λ clock. ⟦<MemClock as Clock>⟧.shown clock ≡ Some (fresh_moments moments)) }
    {
        let verdicts = Vec::with_capacity(alloc, moments.len())?;
        Ok(MemClock {
            alloc,
            asked: None,
            moments,
            given: 0,
            waits: false,
            verdicts,
            lines: Lines::none(alloc),
        })
    }

    // A clock that has no moments, which takes no memory.
    pub(crate) fn without_moments(alloc: Global) -> MemClock
        ensures { ⟦<MemClock as Clock>⟧.shown result ≡ Some (fresh_moments []) }
    {
        MemClock {
            alloc,
            asked: None,
            moments: List::new(alloc),
            given: 0,
            waits: false,
            verdicts: Vec::new(alloc),
            lines: Lines::none(alloc),
        }
    }

    // The same clock, opened with `ticks` ticks.
    pub(crate) fn asked_with(self, ticks: u32) -> MemClock
        ensures { ⟦<MemClock as Clock>⟧.shown result ≡ clock_asked ticks (⟦<MemClock as Clock>⟧.shown self) }
    {
        let mut clock = self;
        clock.asked = Some(ticks);
        clock
    }

    /// The verdicts, in order.
    pub fn verdicts(&self) -> &[Expiry]
        ensures { IfSome (⟦<MemClock as Clock>⟧.shown self.now) (λ moments. result.now ≡ moments.verdicts) }
    {
        self.verdicts.as_slice()
    }

    /// The lines, in order, where none was lost.
    pub fn lines(&self) -> Option<&[Bytes]>
        ensures { option_map (λ lines. lines.now) result ≡ clock_lines (⟦<MemClock as Clock>⟧.shown self.now) }
    {
        match &self.lines.told {
            Some(lines) => Some(lines.as_slice()),
            None => None,
        }
    }
}

impl Clock for MemClock {
    ghost shown = { λ clock. Some (record {
      asked = clock.asked;
      left = drop clock.given clock.moments;
      waits = clock.waits;
      verdicts = clock.verdicts.items;
      lines = clock.lines.told;
    }) };

    fn next(&mut self) -> Option<i64> {
        let moment = *self.moments.as_slice().get(self.given)?;
        self.given += 1;
        self.waits = true;
        Some(moment)
    }

    fn settle(&mut self, verdict: Expiry) {
        self.waits = false;
        self.verdicts.push_reserved(verdict);
    }

    fn note(&mut self, line: &[&[u8]]) {
        self.lines.note(self.alloc, line);
    }
}
