//! What a run stands on.
ghost use Rattle.std.specs.Prelude.{◌≡◌, IfOk, IfSome, OnErr, OnOk};
ghost use Rattle.std.specs.List.{flat_map};
ghost use Rattle.dev_traits.specs.Cause.{HasReadCause};
ghost use Rattle.dev_traits.specs.Lines.{Notes};
ghost use Rattle.dev_traits.specs.Opener.{
  IsNextDoor,
  IsNextInbox,
  OpenerShown,
  after_clock,
  after_door,
  after_inbox,
  next_clock,
  opener_lines,
  with_opener_lines,
};

use crate::clock::Clock;
use crate::dial::Dial;
use crate::door::Door;
use crate::faults::Failed;
use crate::files::Files;
use crate::gate::Gate;
use crate::inbox::Inbox;
use crate::link::Link;
use crate::sink::Sink;
use fm_base::Fail;
use std::alloc::Global;
use std::marker::{Send, Sync};

/// What a run stands on: the types of all its devices, and what opens doors, inboxes and clocks. What it opens has had
/// no failed call, and goes to a thread of its own. That is asked for here and not in the devices' traits, so that a
/// method of another trait can take any device.
pub trait Machine {
    type D: Door<L: Send> + Drop + Send;

    type I: Inbox + Drop + Send;

    type C: Clock + Drop + Send;

    type F: Files + Drop;

    /// The one link of a run that opens no door.
    type L: Link + Drop;

    type S: Sink + Drop;

    /// The gate that each door passes.
    type G: Gate + Drop + Sync;

    /// What leads a run that opens no door to a peer by its address.
    type N: Dial + Drop;

    /// What it will give and the lines, where that is known, and how many calls have failed.
    ghost shown: { Self → OpenerShown Self.D Self.I Self.C };

    /// How many calls have failed. The count stands still at its greatest number.
    fn faults(&self) -> u64
        ensures { result ≡ (shown self.now).faults };

    /// Opens a door at an address for `connections` links; 0 is without end.
    fn door(
        &mut self,
        alloc: Global,
        address: &[u8],
        connections: u32,
    ) -> Result<Self::D, Fail<Failed>>
        ensures next { IfSome (shown self.old).held (λ stock. IfOk result (IsNextDoor Self.D.shown stock.doors
            (record { address = address.now; connections = connections }))) }
        ensures opened { OnOk result ((shown self.new).held ≡ after_door (shown self.old).held) }
        ensures fresh { IfOk result (λ door. (Self.D.shown door).faults ≡ 0) }
        ensures err { OnErr result ((shown self.new).held ≡ (shown self.old).held) }
        ensures cause { HasReadCause (shown self.old).faults (shown self.new).faults result };

    /// Opens the inbox of a folder.
    fn inbox(&mut self, alloc: Global, folder: &[u8]) -> Result<Self::I, Fail<Failed>>
        ensures next { IfSome (shown self.old).held (λ stock.
            IfOk result (IsNextInbox Self.I.shown stock.inboxes folder.now)) }
        ensures opened { OnOk result ((shown self.new).held ≡ after_inbox (shown self.old).held) }
        ensures fresh { IfOk result (λ inbox. (Self.I.shown inbox).faults ≡ 0) }
        ensures err { OnErr result ((shown self.new).held ≡ (shown self.old).held) }
        ensures cause { HasReadCause (shown self.old).faults (shown self.new).faults result };

    /// Opens a clock of `ticks` ticks; 0 is without end.
    fn clock(&mut self, ticks: u32) -> Self::C
        ensures next { IfSome (shown self.old).held (λ stock.
            Self.C.shown result ≡ next_clock Self.C.shown stock.clocks ticks) }
        ensures opened { (shown self.new).held ≡ after_clock (shown self.old).held }
        ensures faults { (shown self.new).faults ≡ (shown self.old).faults };

    /// Takes a line of the journal, in slices and without its end. It may lose it, and doesn't wait for it to be
    /// written.
    fn note(&mut self, line: &[&[u8]])
        ensures same { (shown self.new).held
            ≡ with_opener_lines (opener_lines (shown self.new).held) (shown self.old).held }
        ensures noted { Notes (flat_map (λ part. part.now) line.now)
            (opener_lines (shown self.old).held) (opener_lines (shown self.new).held) }
        ensures faults { (shown self.new).faults ≡ (shown self.old).faults };
}
