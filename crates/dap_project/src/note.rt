//! What clauses ask of the declarations of a dataset, noted clause by clause.
ghost use Rattle.std.specs.Prelude.{◌≡◌, IfOk, IsFalse, IsTrue, OnOk, length, map, None};
ghost use Rattle.dap_model.specs.Picking as picking;
ghost use Rattle.dap_project.specs.Buckets.{indices_for};
ghost use Rattle.dap_project.specs.Checks.{Agrees, IsChecked};
ghost use Rattle.dap_project.specs.Full.{full_note, full_notes, full_slots};
ghost use Rattle.dap_project.specs.Notes as spec;

use crate::part::part_count;
use crate::picked::{Choice, Named, is_every, is_picked, picked_by};
use crate::slot::{Slot, slot_differs};
use dap_model::{Clause, Decl, Slab};
use fm_base::{Bytes, List, NoMemory};
use std::alloc::Global;

// What the clauses so far ask of a declaration: whether one picks it or a part of it, whether one picks all of it, and
// a slot for each part.
#[derive(Drop)]
pub(crate) struct Note {
    pub(crate) picked: bool,
    pub(crate) every: bool,
    pub(crate) slots: List<Slot>,
}

// Slots of parts that no clause has named, without room for more.
#[tactic(auto, unfolding(crate::specs::Notes::free_slots))]
fn free_slots(alloc: Global, decl: &Decl) -> Result<List<Slot>, NoMemory>
    ensures { IfOk result (λ slots. slots ≡ spec.free_slots (picking.parts_of decl.now)) }
{
    let count = part_count(decl);
    let items = Vec::with_capacity(alloc, count)?;
    let mut slots = List { items };
    for _part in 0..count {
        slots.push(Slot::Free)?;
    }
    Ok(slots)
}

// Notes what a clause gives to each part of a declaration of which it picks something. `agrees`: the caller knows that
// no slot has other slabs.
fn note_slots(
    alloc: Global,
    decl: &Decl,
    slabs: &[Slab],
    choice: Choice,
    slots: &mut [Slot],
    agrees: bool,
) -> Result<(), NoMemory>
    requires { IsTrue agrees → IsFalse (spec.slots_differ
        (λ part. picking.slabs_for decl.now slabs.now part (spec.picked_of choice)) 0
        (full_slots decl.now slots.old)) }
    ensures { OnOk result (full_slots decl.now slots.new ≡ spec.slots_after
        (λ part. picking.slabs_for decl.now slabs.now part (spec.picked_of choice)) 0
        (full_slots decl.now slots.old)) }
{
    for part in 0..slots.len() {
        slots[part].add(alloc, decl, slabs, part, choice, agrees)?;
    }
    Ok(())
}

// Whether a clause gives some part of a declaration other slabs than an earlier clause did.
pub(crate) fn slots_differ(decl: &Decl, slabs: &[Slab], choice: Choice, slots: &[Slot]) -> bool
    ensures { result ≡ spec.slots_differ
        (λ part. picking.slabs_for decl.now slabs.now part (spec.picked_of choice)) 0
        (full_slots decl.now slots.now) }
{
    for part in 0..slots.len() {
        if slot_differs(&slots[part], decl, slabs, part, choice) {
            return true;
        }
    }
    false
}

impl Note {
    // Before the first clause.
    #[tactic(auto, unfolding(crate::specs::Notes::fresh_note))]
    pub(crate) fn fresh(alloc: Global, decl: &Decl) -> Result<Note, NoMemory>
        ensures { IfOk result (λ note. note ≡ spec.fresh_note decl.now) }
    {
        let slots = free_slots(alloc, decl)?;
        Ok(Note {
            picked: false,
            every: false,
            slots,
        })
    }

    // Notes what a clause asks of the declaration of which it picks this. `agrees`: the caller knows that no part has
    // other slabs.
    #[tactic(auto, unfolding(crate::specs::Notes::note_after, dap_model::specs::Picking::given_by))]
    pub(crate) fn add(
        &mut self,
        alloc: Global,
        decl: &Decl,
        clause: &Clause,
        choice: Choice,
        agrees: bool,
    ) -> Result<(), NoMemory>
        requires picked { spec.picked_of choice ≡ picking.picked_by decl.now clause.now.path }
        requires agrees { IsTrue agrees → Agrees decl.now clause.now (full_note decl.now self.old) }
        ensures { OnOk result (full_note decl.now self.new
            ≡ spec.note_after decl.now clause.now (full_note decl.now self.old)) }
    {
        if !is_picked(choice) {
            return Ok(());
        }
        let slabs = clause.slabs.as_slice();
        let slots = self.slots.items.as_mut_slice();
        note_slots(alloc, decl, slabs, choice, slots, agrees)?;
        self.picked = self.picked || is_picked(choice);
        self.every = self.every || is_every(choice);
        Ok(())
    }
}

// Notes of declarations before the first clause.
pub(crate) fn fresh_notes(alloc: Global, decls: &[Decl]) -> Result<List<Note>, NoMemory>
    ensures { IfOk result (λ notes. notes ≡ map spec.fresh_note decls.now) }
{
    let items = Vec::with_capacity(alloc, decls.len())?;
    let mut notes = List { items };
    for decl in decls {
        notes.push(Note::fresh(alloc, decl)?)?;
    }
    Ok(notes)
}

// What a path picks of a declaration, which may be known.
fn choice_on(decl: &Decl, path: &[Bytes], known: bool, choice: Choice) -> Choice
    requires { IsTrue known → spec.picked_of choice ≡ picking.picked_by decl.now path.now }
    ensures { spec.picked_of result ≡ picking.picked_by decl.now path.now }
{
    if known {
        return choice;
    }
    picked_by(decl, path)
}

// Notes what a clause asks of each declaration. It may pick something of those at these indices alone. On one of them
// it was checked: what it picks of that is known, and no part of that has other slabs.
pub(crate) fn note_clause(
    alloc: Global,
    decls: &[Decl],
    indices: &[usize],
    notes: &mut [Note],
    clause: &Clause,
    checked: Named,
) -> Result<(), NoMemory>
    requires count { length notes.old ≡ length decls.now }
    requires indices { indices.now ≡ indices_for decls.now clause.now.path }
    requires checked { IsChecked decls.now (full_notes decls.now notes.old) clause.now checked }
    ensures { OnOk result (full_notes decls.now notes.new
        ≡ spec.notes_after clause.now decls.now (full_notes decls.now notes.old)) }
{
    for at in indices {
        let decl = &decls[*at];
        let known = *at == checked.at;
        let choice = choice_on(decl, clause.path.as_slice(), known, checked.choice);
        notes[*at].add(alloc, decl, clause, choice, known)?;
    }
    Ok(())
}
