//! What workers are given: a door's worker looks with eyes, and any other publishes with a hand.
ghost use Rattle.std.specs.Prelude.{IfOk};
ghost use Rattle.srv_workers.specs.Given.{IsVacant};

use crate::slots::{Slots, pair_with_room};
use fm_base::{List, NoMemory};
use std::alloc::Global;

// Eyes for each door, and a hand for each inbox and for each clock, in their order.
#[derive(Drop)]
pub(crate) struct Given<E, H> {
    pub eyes: List<E>,
    pub at_inboxes: List<H>,
    pub at_clocks: List<H>,
}

// Room for them.
#[derive(Drop)]
pub(crate) struct Vacant<E, H> {
    pub eyes: Slots<E>,
    pub at_inboxes: Slots<H>,
    pub at_clocks: Slots<H>,
}

// Room for what is given to the workers of `doors` doors, `inboxes` inboxes and `clocks` clocks.
pub(crate) fn vacant_for<E: Drop, H: Drop>(
    alloc: Global,
    doors: usize,
    inboxes: usize,
    clocks: usize,
) -> Result<Vacant<E, H>, NoMemory>
    ensures { IfOk result (IsVacant doors inboxes clocks) }
{
    let eyes = Slots::with_room(alloc, doors)?;
    match pair_with_room(alloc, inboxes, clocks) {
        Ok(hands) => Ok(Vacant {
            eyes,
            at_inboxes: hands.first,
            at_clocks: hands.second,
        }),
        Err(NoMemory) => {
            drop(eyes);
            Err(NoMemory)
        }
    }
}
