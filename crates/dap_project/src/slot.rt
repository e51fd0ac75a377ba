//! The slabs of one part, as clauses give them.
ghost use Rattle.std.specs.Prelude.{◌≡◌, IsFalse, IsTrue, OnOk};
ghost use Rattle.dap_model.specs.Picking.{slabs_for};
ghost use Rattle.dap_project.specs.Full.{full_part};
ghost use Rattle.dap_project.specs.Notes as spec;

use crate::part::part_dims;
use crate::picked::Choice;
use crate::slabs::{are_alike, given_for};
use dap_model::{Decl, Slab};
use fm_base::{List, NoMemory};
use std::alloc::Global;

// A part that no clause has named, or the slabs that the first clause gave it, and whether a later one gave it others.
// Where that clause gave none, none are kept, which takes no memory: they stand for the whole of each dimension.
// No clause is taken that does so on the declaration that it names; but a dataset may have two of one name.
#[derive(Drop)]
pub(crate) enum Slot {
    Free,
    Taken(List<Slab>, bool),
}

impl Slot {
    // Notes what a clause gives the part, if anything. The slabs of a taken slot are compared where they lie. With
    // `agrees` the caller knows that they don't differ, and none are compared.
    pub(crate) fn add(
        &mut self,
        alloc: Global,
        decl: &Decl,
        slabs: &[Slab],
        part: usize,
        choice: Choice,
        agrees: bool,
    ) -> Result<(), NoMemory>
        requires { IsTrue agrees → IsFalse (spec.slot_differs (full_part decl.now part self.old)
            (slabs_for decl.now slabs.now part (spec.picked_of choice))) }
        ensures { OnOk result (full_part decl.now part self.new
            ≡ spec.slot_after (slabs_for decl.now slabs.now part (spec.picked_of choice))
            (full_part decl.now part self.old)) }
    {
        let Some(given) = given_for(slabs, part, choice) else {
            return Ok(());
        };
        match self {
            Slot::Free => {
                let items = Vec::from_slice(alloc, given)?;
                *self = Slot::Taken(List { items }, false);
            }
            Slot::Taken(_, _) if agrees => {}
            Slot::Taken(first, mixed) => {
                *mixed = *mixed || !are_alike(part_dims(decl, part), first.as_slice(), given);
            }
        }
        Ok(())
    }
}

// Whether slabs that a clause gives a part differ from some that an earlier clause gave it.
pub(crate) fn slot_differs(
    slot: &Slot,
    decl: &Decl,
    slabs: &[Slab],
    part: usize,
    choice: Choice,
) -> bool
    ensures { result ≡ spec.slot_differs (full_part decl.now part slot.now)
        (slabs_for decl.now slabs.now part (spec.picked_of choice)) }
{
    match slot {
        Slot::Free => false,
        Slot::Taken(first, mixed) => match given_for(slabs, part, choice) {
            Some(given) => *mixed || !are_alike(part_dims(decl, part), first.as_slice(), given),
            None => false,
        },
    }
}
