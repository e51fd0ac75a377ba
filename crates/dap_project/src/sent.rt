//! What is sent for the notes of declarations.
ghost use Rattle.std.specs.Prelude.{◌≡◌, ◌++◌, IfOk, OnOk, length, All};
ghost use Rattle.dap_model.specs.Picking.{parts_of};
ghost use Rattle.dap_model.specs.Projection.{rebuilt};
ghost use Rattle.dap_project.specs.Checks.{AllCanBeCut, CanBeCut, IsSlotCut};
ghost use Rattle.dap_project.specs.Full.{full_note, full_notes, full_slot, full_slots};
ghost use Rattle.dap_project.specs.Noted as spec;

use crate::cut::cut_array;
use crate::note::Note;
use crate::part::part_dims;
use crate::picked::name_of;
use crate::shared::{part_before, slabs_shared};
use crate::slot::Slot;
use dap_model::{Array, Decl, Projected, Sent};
use dap_slab::part_of;
use fm_base::{Bytes, List, NoMemory};
use nc_model::Dim;
use std::alloc::Global;

// Adds a part whose slot is taken, as an array.
fn add_cut(
    alloc: Global,
    array: &Array,
    slot: &Slot,
    parts: &mut List<Array>,
) -> Result<(), NoMemory>
    requires { IsSlotCut array.now (full_slot array.now.dims slot.now) }
    ensures { OnOk result (parts.new ≡ parts.old ++ spec.cut_of array.now (full_slot array.now.dims slot.now)) }
{
    match slot {
        Slot::Free => Ok(()),
        Slot::Taken(slabs, _) => parts.push(cut_array(alloc, array, slabs.as_slice())?),
    }
}

// The parts of a declaration whose slots are taken, as arrays, with room for as many as there are slots.
fn cut_parts(alloc: Global, decl: &Decl, slots: &[Slot]) -> Result<List<Array>, NoMemory>
    requires { CanBeCut (parts_of decl.now) (full_slots decl.now slots.now) }
    ensures { IfOk result (λ parts. parts ≡ spec.cut_slots (parts_of decl.now) (full_slots decl.now slots.now)) }
{
    let items = Vec::with_capacity(alloc, slots.len())?;
    let mut parts = List { items };
    for part in 0..slots.len() {
        let Some(array) = part_of(decl, part) else {
            return Ok(parts);
        };
        add_cut(alloc, array, &slots[part], &mut parts)?;
    }
    Ok(parts)
}

// A declaration of these parts: a Grid only where all of it is asked for.
fn rebuilt(alloc: Global, every: bool, decl: &Decl, parts: List<Array>) -> Result<Decl, NoMemory>
    ensures { IfOk result (λ sent. sent ≡ rebuilt every decl.now parts) }
{
    let mut maps = parts;
    let name = Bytes::copy_of(alloc, name_of(decl))?;
    if maps.is_empty() {
        return Ok(Decl::Structure {
            name,
            members: maps,
        });
    }
    match decl {
        Decl::Plain(_) => Ok(Decl::Plain(maps.items.remove(0))),
        Decl::Grid { .. } if every => {
            let array = maps.items.remove(0);
            Ok(Decl::Grid { name, array, maps })
        }
        _ => Ok(Decl::Structure {
            name,
            members: maps,
        }),
    }
}

// A declaration as it is sent.
#[tactic(auto, unfolding(crate::specs::Noted::noted_decl))]
fn decl_sent(alloc: Global, decl: &Decl, note: &Note) -> Result<Decl, NoMemory>
    requires { CanBeCut (parts_of decl.now) (full_slots decl.now note.now.slots) }
    ensures { IfOk result (λ sent. sent ≡ spec.noted_decl decl.now (full_note decl.now note.now)) }
{
    let parts = cut_parts(alloc, decl, note.slots.as_slice())?;
    rebuilt(alloc, note.every, decl, parts)
}

// Adds a declaration, where something of it is picked.
fn add_decl(alloc: Global, decl: &Decl, note: &Note, sent: &mut List<Decl>) -> Result<(), NoMemory>
    requires { CanBeCut (parts_of decl.now) (full_slots decl.now note.now.slots) }
    ensures { OnOk result (sent.new ≡ sent.old ++ spec.decl_of decl.now (full_note decl.now note.now)) }
{
    if note.picked {
        sent.push(decl_sent(alloc, decl, note)?)?;
    }
    Ok(())
}

// The declarations that are sent.
fn decls_sent(alloc: Global, decls: &[Decl], notes: &[Note]) -> Result<List<Decl>, NoMemory>
    requires count { length notes.now ≡ length decls.now }
    requires cuts { AllCanBeCut decls.now (full_notes decls.now notes.now) }
    ensures { IfOk result (λ sent. sent ≡ spec.noted_decls decls.now (full_notes decls.now notes.now)) }
{
    let mut sent = List::new(alloc);
    for at in 0..notes.len() {
        add_decl(alloc, &decls[at], &notes[at], &mut sent)?;
    }
    Ok(sent)
}

// Adds a part of these dimensions whose slot is taken, of a declaration of `count` parts, by the index of the
// declaration and its own number.
fn add_part(
    alloc: Global,
    decl: u32,
    at: usize,
    count: usize,
    dims: &[Dim],
    slot: &Slot,
    sent: &mut List<Sent>,
) -> Result<(), NoMemory>
    ensures { OnOk result (sent.new ≡ sent.old ++ spec.sent_of_slot decl at (full_slot dims.now slot.now)) }
{
    match slot {
        Slot::Free => Ok(()),
        Slot::Taken(slabs, _) => {
            let Ok(part) = u32::try_from(at) else {
                return Err(NoMemory);
            };
            let earlier = part_before(sent.as_slice(), count);
            let slabs = slabs_shared(alloc, dims, slabs.as_slice(), earlier)?;
            sent.push(Sent { decl, part, slabs })
        }
    }
}

// Adds the parts of a declaration whose slots are taken, by the index of the declaration.
fn add_parts(
    alloc: Global,
    index: u32,
    decl: &Decl,
    slots: &[Slot],
    sent: &mut List<Sent>,
) -> Result<(), NoMemory>
    ensures { OnOk result (sent.new ≡ sent.old ++ spec.sent_slots index 0 (full_slots decl.now slots.now)) }
{
    for at in 0..slots.len() {
        let dims = part_dims(decl, at);
        add_part(alloc, index, at, slots.len(), dims, &slots[at], sent)?;
    }
    Ok(())
}

// The parts that are sent.
pub(crate) fn parts_sent(
    alloc: Global,
    decls: &[Decl],
    notes: &[Note],
) -> Result<List<Sent>, NoMemory>
    requires { length notes.now ≡ length decls.now }
    ensures { IfOk result (λ sent. sent ≡ spec.noted_sent 0 (full_notes decls.now notes.now)) }
{
    let mut sent = List::new(alloc);
    for at in 0..notes.len() {
        let Ok(index) = u32::try_from(at) else {
            return Err(NoMemory);
        };
        add_parts(
            alloc,
            index,
            &decls[at],
            notes[at].slots.as_slice(),
            &mut sent,
        )?;
    }
    Ok(sent)
}

// What is sent for notes. Where a part's number doesn't fit 32 bits, memory is said to have run out.
pub(crate) fn all_sent(alloc: Global, decls: &[Decl], notes: &[Note]) -> Result<Projected, NoMemory>
    requires count { length notes.now ≡ length decls.now }
    requires cuts { AllCanBeCut decls.now (full_notes decls.now notes.now) }
    ensures { IfOk result (λ sent. sent ≡ spec.noted_all decls.now (full_notes decls.now notes.now)) }
{
    let sent = parts_sent(alloc, decls, notes)?;
    let decls = decls_sent(alloc, decls, notes)?;
    Ok(Projected { decls, sent })
}
