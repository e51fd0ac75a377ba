//! Desks that are open, each with a collection.
ghost use Rattle.std.specs.Prelude.{◌≡◌, ◌++◌, ◌-◌, ◌<◌, ◌≤◌, IsTrue, List, length, map, sum, ℕ};
ghost use Rattle.fm_model.specs.declared.op.Op.{Op as Operation};
ghost use Rattle.srv_workers.specs.Desks.{HasSeenEach, HasSeenItsLog, LearnsEach, LearnsItsLog};
ghost use Rattle.srv_workers.specs.Desks.{closed_of, counted_at, first_of, Means};
ghost use Rattle.srv_workers.specs.Slots.{PutsItems, Slotted};
ghost use Rattle.srv_workers.specs.Work.{LetsGo, ServesDoor, TakesIn};

use crate::slots::Slots;
use dev_traits::{Clock, Door, Gate, Inbox};
use pub_snap::Closed;
use srv_door::DoorReport;
use srv_ingest::{ExpireReport, IngestReport};
use std::alloc::Global;
use std::sync::Wait;

// The desks of a run, by their number from 0. A door's worker looks at all of them; any other looks and publishes at
// one. Which one is of the worker's type, so nobody can publish at another.
pub(crate) trait Desks: Sized {
    // What a door's worker looks with.
    type Eyes: Drop;

    // What one that publishes has: a pass and a share of its desk.
    type Hand: Drop;

    // The desks while workers publish, each under a lock.
    type Shared;

    // What each desk has published.
    type Receipts: Drop;

    // The shares that were given back, and room for the others.
    type Back: Drop;

    // How contracts see the two.
    ghost means: { Means Self.Eyes Self.Hand };

    // The number of shares of each desk.
    ghost parts: { ℕ → ℕ };

    ghost logs: { Self → ℕ → List Operation };

    ghost told: { Self.Receipts → ℕ → List Operation };

    ghost slots: { Self.Back → ℕ → Slotted ℕ };

    fn shared(self) -> Self::Shared;

    fn alone(shared: Self::Shared) -> Self;

    fn serve<R: Wait, D: Door, G: Gate>(
        rt: &R,
        alloc: Global,
        eyes: &mut Self::Eyes,
        door: &mut D,
        number: u32,
        gate: &G,
    ) -> DoorReport
        ensures { ServesDoor D.shown D.L.shown means.them (means.views eyes.old) (means.views eyes.new)
            door.old door.new result };

    fn take_in<R: Wait, I: Inbox>(
        rt: &R,
        alloc: Global,
        shared: &Self::Shared,
        hand: &mut Self::Hand,
        inbox: &mut I,
    ) -> IngestReport
        ensures { TakesIn I.shown means.them (means.publisher hand.old) (means.publisher hand.new)
            inbox.old inbox.new result };

    fn let_go<R: Wait, C: Clock>(
        rt: &R,
        alloc: Global,
        shared: &Self::Shared,
        hand: &mut Self::Hand,
        clock: &mut C,
        keep: u32,
    ) -> ExpireReport
        ensures { LetsGo C.shown means.them keep (means.publisher hand.old) (means.publisher hand.new)
            clock.old clock.new result };

    fn receipts(&self) -> Self::Receipts
        ensures { told result ≡ logs self.now };

    // Has one that publishes learn the log of its desk, and says whether it has then seen just that.
    fn learn(hand: &mut Self::Hand, all: &Self::Receipts) -> bool
        ensures learns { LearnsItsLog (told all.now) (means.publisher hand.old) (means.publisher hand.new) }
        ensures seen { IsTrue result → HasSeenItsLog means.them (told all.now) (means.publisher hand.new) };

    // Has a door's worker learn the log of each, and says whether it has then seen just those.
    fn learn_all(eyes: &mut Self::Eyes, all: &Self::Receipts) -> bool
        ensures learns { LearnsEach means.them.count (told all.now) (means.views eyes.old) (means.views eyes.new) }
        ensures seen { IsTrue result → HasSeenEach means.them (told all.now) (means.views eyes.new) };

    // Takes a share back. It takes no memory.
    fn give(back: &mut Self::Back, hand: Self::Hand)
        requires { (number : ℕ) → number < means.them.count
            → length (counted_at number (means.publisher hand)) ≤ (slots back.old number).free }
        ensures { (number : ℕ) → number < means.them.count
            → PutsItems (counted_at number (means.publisher hand)) (slots back.old number) (slots back.new number) };

    // Closes each desk, and puts its end behind others. It takes no memory.
    fn close<R: Wait>(self, rt: &R, back: Self::Back, closed: &mut Slots<Closed>)
        requires all { (number : ℕ) → number < means.them.count
            → length (slots back number).items ≡ parts number }
        requires free { means.them.count ≤ closed.old.free }
        ensures closed { closed.new.items
            ≡ closed.old.items ++ map closed_of (first_of means.them.count (logs self)) }
        ensures left { closed.new.free ≡ closed.old.free - means.them.count }
        ensures counted { (number : ℕ) → number < means.them.count
            → sum (slots back number).items ≡ length (logs self number) };
}
