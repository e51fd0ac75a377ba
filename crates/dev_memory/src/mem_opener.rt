//! A machine in memory.
ghost use Rattle.std.specs.Prelude.{◌≡◌, [], All, IfOk, OnErr, OnOk, Some, option_map};
ghost use Rattle.dev_traits.specs.Cause.{HasReadCause};
ghost use Rattle.dev_traits.specs.Opener.{IsNextDoor, IsNextInbox, Stock, after_door, after_inbox, opener_lines};

use crate::calls::Calls;
use crate::first::take_first;
use crate::lines::Lines;
use crate::mem_clock::MemClock;
use crate::mem_dial::MemDial;
use crate::mem_door::MemDoor;
use crate::mem_files::MemFiles;
use crate::mem_inbox::MemInbox;
use crate::mem_link::MemLink;
use crate::mem_sink::MemSink;
use dev_traits::{Clock, Door, DoorAsked, Failed, Inbox, Machine, OpenGate};
use fm_base::{Bytes, Fail, List};
use std::alloc::Global;

/// A machine in memory, with the doors, inboxes and clocks that it opens. Without a further door or inbox it fails;
/// without a further clock it gives one without moments. It keeps its lines, as long as memory lasts.
#[derive(Drop)]
pub struct MemOpener {
    alloc: Global,
    doors: List<MemDoor>,
    inboxes: List<MemInbox>,
    clocks: List<MemClock>,
    lines: Lines,
    calls: Calls,
    ghost doors_fresh: { All (λ door. (⟦<MemDoor as Door>⟧.shown door).faults ≡ 0) doors },
    ghost inboxes_fresh: { All (λ inbox. (⟦<MemInbox as Inbox>⟧.shown inbox).faults ≡ 0) inboxes },
}

impl MemOpener {
    /// An opener of these, no call of which has failed. The calls with these numbers, counted together from 1 without
    /// those for clocks, fail.
    pub fn new(
        alloc: Global,
        doors: List<MemDoor>,
        inboxes: List<MemInbox>,
        clocks: List<MemClock>,
        failing: List<u64>,
    ) -> MemOpener
        requires doors { All (λ door. (⟦<MemDoor as Door>⟧.shown door).faults ≡ 0) doors }
        requires inboxes { All (λ inbox. (⟦<MemInbox as Inbox>⟧.shown inbox).faults ≡ 0) inboxes }
        ensures shown { ⟦<MemOpener as Machine>⟧.shown result ≡ record {
          held = Some (record { doors = doors; inboxes = inboxes; clocks = clocks; lines = Some [] });
          faults = 0;
        } }
    {
        MemOpener {
            alloc,
            doors,
            inboxes,
            clocks,
            lines: Lines::none(alloc),
            calls: Calls::new(failing),
        }
    }

    /// The lines, in order, where none was lost.
    pub fn lines(&self) -> Option<&[Bytes]>
        ensures { option_map (λ lines. lines.now) result
            ≡ opener_lines (⟦<MemOpener as Machine>⟧.shown self.now).held }
    {
        match &self.lines.told {
            Some(lines) => Some(lines.as_slice()),
            None => None,
        }
    }
}

#[tactic(auto, using(crate::proofs::FirstLemmas::firsts))]
impl MemOpener {
    // The next door, opened with this, where the call isn't to fail.
    fn next_door(&mut self, asked: DoorAsked) -> Result<MemDoor, Fail<Failed>>
        ensures next { IfOk result (IsNextDoor ⟦<MemDoor as Door>⟧.shown self.old.doors asked) }
        ensures opened { OnOk result ((⟦<MemOpener as Machine>⟧.shown self.new).held
            ≡ after_door (⟦<MemOpener as Machine>⟧.shown self.old).held) }
        ensures fresh { IfOk result (λ door. (⟦<MemDoor as Door>⟧.shown door).faults ≡ 0) }
        ensures err { OnErr result ((⟦<MemOpener as Machine>⟧.shown self.new).held
            ≡ (⟦<MemOpener as Machine>⟧.shown self.old).held) }
        ensures cause { HasReadCause self.old.calls.faults self.new.calls.faults result }
    {
        match take_first(&mut self.doors) {
            Some(door) => Ok(door.asked_with(asked)),
            None => Err(Fail::Fault(self.calls.fail())),
        }
    }

    // The next inbox, opened with this folder, where the call isn't to fail.
    fn next_inbox(&mut self, folder: Bytes) -> Result<MemInbox, Fail<Failed>>
        ensures next { IfOk result (IsNextInbox ⟦<MemInbox as Inbox>⟧.shown self.old.inboxes folder) }
        ensures opened { OnOk result ((⟦<MemOpener as Machine>⟧.shown self.new).held
            ≡ after_inbox (⟦<MemOpener as Machine>⟧.shown self.old).held) }
        ensures fresh { IfOk result (λ inbox. (⟦<MemInbox as Inbox>⟧.shown inbox).faults ≡ 0) }
        ensures err { OnErr result ((⟦<MemOpener as Machine>⟧.shown self.new).held
            ≡ (⟦<MemOpener as Machine>⟧.shown self.old).held) }
        ensures cause { HasReadCause self.old.calls.faults self.new.calls.faults result }
    {
        match take_first(&mut self.inboxes) {
            Some(inbox) => Ok(inbox.asked_with(folder)),
            None => Err(Fail::Fault(self.calls.fail())),
        }
    }
}

impl Machine for MemOpener {
    type D = MemDoor;

    type I = MemInbox;

    type C = MemClock;

    type F = MemFiles;

    type L = MemLink;

    type S = MemSink;

    type G = OpenGate;

    type N = MemDial;

    ghost shown = { λ opener. record {
      held = Some (record {
        doors = opener.doors;
        inboxes = opener.inboxes;
        clocks = opener.clocks;
        lines = opener.lines.told;
      });
      faults = opener.calls.faults;
    } };

    fn faults(&self) -> u64 {
        self.calls.faults
    }

    fn door(
        &mut self,
        alloc: Global,
        address: &[u8],
        connections: u32,
    ) -> Result<MemDoor, Fail<Failed>> {
        if self.calls.due() {
            return Err(Fail::Fault(self.calls.fail()));
        }
        let address = List::copy_of(alloc, address)?;
        self.next_door(DoorAsked {
            address,
            connections,
        })
    }

    fn inbox(&mut self, alloc: Global, folder: &[u8]) -> Result<MemInbox, Fail<Failed>> {
        if self.calls.due() {
            return Err(Fail::Fault(self.calls.fail()));
        }
        let folder = List::copy_of(alloc, folder)?;
        self.next_inbox(folder)
    }

    fn clock(&mut self, ticks: u32) -> MemClock {
        match take_first(&mut self.clocks) {
            Some(clock) => clock.asked_with(ticks),
            None => MemClock::without_moments(self.alloc).asked_with(ticks),
        }
    }

    fn note(&mut self, line: &[&[u8]]) {
        self.lines.note(self.alloc, line);
    }
}
