//! A machine in memory whose devices wait for each other.
ghost use Rattle.std.specs.Prelude.{None};

use crate::course::{Course, Watch};
use dev_memory::{MemClock, MemDial, MemDoor, MemFiles, MemInbox, MemLink, MemOpener, MemSink};
use dev_traits::{Arrival, Clock, Expiry, Failed, Found, Inbox, Machine, Verdict};
use fm_base::Fail;
use std::alloc::Global;

/// An inbox in memory that gives a name when its turn has come.
#[derive(Drop)]
pub struct PacedInbox<'a> {
    pub inbox: MemInbox,
    course: &'a Course,
}

impl<'a> Inbox for PacedInbox<'a> {
    ghost shown = { λ paced. ⟦<MemInbox as Inbox>⟧.shown paced.inbox };

    fn faults(&self) -> u64 {
        self.inbox.faults()
    }

    fn next(&mut self, alloc: Global) -> Result<Arrival, Fail<Failed>> {
        self.course.wait_for_name();
        self.inbox.next(alloc)
    }

    fn fetch(&mut self, alloc: Global, name: &[u8], limit: u64) -> Result<Found, Fail<Failed>> {
        self.inbox.fetch(alloc, name, limit)
    }

    fn settle(&mut self, name: &[u8], verdict: Verdict) -> Result<(), Failed> {
        let settled = self.inbox.settle(name, verdict);
        self.course.count_verdict();
        settled
    }

    fn note(&mut self, line: &[&[u8]]) {
        self.inbox.note(line);
    }
}

/// A clock in memory that comes to a moment when its turn has come.
#[derive(Drop)]
pub struct PacedClock<'a> {
    pub clock: MemClock,
    course: &'a Course,
}

impl<'a> Clock for PacedClock<'a> {
    ghost shown = { λ paced. ⟦<MemClock as Clock>⟧.shown paced.clock };

    fn next(&mut self) -> Option<i64> {
        self.course.wait_for_moment();
        self.clock.next()
    }

    fn settle(&mut self, verdict: Expiry) {
        self.clock.settle(verdict);
    }

    fn note(&mut self, line: &[&[u8]]) {
        self.clock.note(line);
    }
}

/// A machine in memory whose inboxes, clocks and links take turns. It says nothing of what it holds.
#[derive(Drop)]
pub struct Paced<'a> {
    pub opener: MemOpener,
    pub course: &'a Course,
}

impl<'a> Machine for Paced<'a> {
    type D = MemDoor;

    type I = PacedInbox<'a>;

    type C = PacedClock<'a>;

    type F = MemFiles;

    type L = MemLink;

    type S = MemSink;

    type G = Watch<'a>;

    type N = MemDial;

    ghost shown = { λ paced. record {
      held = None;
      faults = (⟦<MemOpener as Machine>⟧.shown paced.opener).faults;
    } };

    fn faults(&self) -> u64 {
        self.opener.faults()
    }

    fn door(
        &mut self,
        alloc: Global,
        address: &[u8],
        connections: u32,
    ) -> Result<MemDoor, Fail<Failed>> {
        self.opener.door(alloc, address, connections)
    }

    fn inbox(&mut self, alloc: Global, folder: &[u8]) -> Result<PacedInbox<'a>, Fail<Failed>> {
        let inbox = self.opener.inbox(alloc, folder)?;
        Ok(PacedInbox {
            inbox,
            course: self.course,
        })
    }

    fn clock(&mut self, ticks: u32) -> PacedClock<'a> {
        PacedClock {
            clock: self.opener.clock(ticks),
            course: self.course,
        }
    }

    fn note(&mut self, line: &[&[u8]]) {
        self.opener.note(line);
    }
}
