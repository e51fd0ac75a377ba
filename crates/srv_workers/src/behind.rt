//! Desks that may stand behind another one, and how all of them are opened.
ghost use Rattle.std.specs.Prelude.{◌≡◌, ◌+◌, ◌<◌, ◌≤◌, ◌^◌, IfOk, IsTrue, List, false, replicate, ℕ};
ghost use Rattle.pub_snap.specs.Opening.{Opening};
ghost use Rattle.srv_many.specs.Several.{views_in};
ghost use Rattle.srv_workers.specs.Desks.{first_of, HasSeenEach, IsUnseen, LearnsEach};
ghost use Rattle.srv_workers.specs.Given.{AreGivenOut, IsBackFor};

use crate::desks::Desks;
use crate::given::Given;
use fm_base::{Arc, List, NoMemory};
use fm_model::Proto;
use pub_snap::Blank;
use srv_many::Row;
use std::alloc::Global;
use std::sync::Wait;

// Desks behind another one. Each has one inbox and at most one clock.
pub(crate) trait Behind: Desks {
    // A pass of each in a row.
    type Passes: Row + Drop;

    // Blanks that they are opened from, with passes for n doors, and for k clocks of each.
    ghost are_blank: { ℕ → ℕ → List Opening → Type 0 };

    // What is known by the types: the prototypes, that a look may see more, and that a hand is of one of the desks.
    fn know()
        ensures protos { (passes : Self.Passes) → (Self.Passes.known passes).protos
            ≡ first_of Self.means.them.count Self.means.them.proto }
        ensures stills { (passes : Self.Passes) → (Self.Passes.known passes).stills
            ≡ replicate Self.means.them.count false }
        ensures within { (hand : Self.Hand) → (Self.means.publisher hand).desk < Self.means.them.count };

    // Has each pass learn the log of its desk, and says whether it has then seen just those.
    fn learn_passes(passes: &mut Self::Passes, all: &Self::Receipts) -> bool
        ensures learns { LearnsEach Self.means.them.count (Self.told all.now)
            (views_in (Self.Passes.known passes.old)) (views_in (Self.Passes.known passes.new)) }
        ensures seen { IsTrue result
            → HasSeenEach Self.means.them (Self.told all.now) (views_in (Self.Passes.known passes.new)) };

    // Eyes of a row of passes, over these prototypes. It takes no memory.
    fn eyes(passes: Self::Passes, protos: List<Arc<Proto>>) -> Self::Eyes
        requires protos { protos ≡ first_of Self.means.them.count Self.means.them.proto }
        requires few { Self.means.them.count ≤ 8 }
        requires unseen { IsUnseen (views_in (Self.Passes.known passes)) }
        ensures { IsUnseen (Self.means.views result) };

    // Room for `shares` shares of each.
    fn back(alloc: Global, shares: usize) -> Result<Self::Back, NoMemory>
        ensures { IfOk result (IsBackFor Self.slots Self.means.them.count (λ _. shares)) };

    // Opens all desks over these prototypes, and gives out their passes and shares. Where memory runs out, none stays
    // open.
    fn open<R: Wait>(
        rt: &R,
        alloc: Global,
        blanks: List<Blank>,
        protos: &[Arc<Proto>],
        doors: usize,
        clocks: usize,
    ) -> Result<(Self, Given<Self::Passes, Self::Hand>), NoMemory>
        requires blanks { are_blank doors clocks blanks }
        requires protos { protos.now ≡ first_of Self.means.them.count Self.means.them.proto }
        requires few { (doors < 2 ^ 32) × (clocks ≤ 1) }
        ensures given { IfOk result (λ opened. AreGivenOut Self.means.them
            (λ passes. views_in (Self.Passes.known passes)) Self.means.publisher doors clocks opened.1) }
        ensures parts { IfOk result (λ _.
            (number : ℕ) → number < Self.means.them.count → Self.parts number ≡ 1 + clocks) };
}
