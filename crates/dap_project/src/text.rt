//! The structure text of what is sent for the notes of declarations. It is written from the declarations as they stand:
//! none is made or copied.
ghost use Rattle.std.specs.Prelude.{◌≡◌, ◌<◌, ◌++◌, [], IfOk, MatchOption, OnOk, length, map};
ghost use Rattle.std.specs.List.{zip};
ghost use Rattle.dap_model.specs.Picking.{name_of, or_whole, parts_of};
ghost use Rattle.dap_model.specs.Projection.{cut_array, cut_dim};
ghost use Rattle.dap_model.specs.StructureText as text;
ghost use Rattle.dap_project.specs.Checks.{AllCanBeCut, AreCuts, CanBeCut, IsSlotCut};
ghost use Rattle.dap_project.specs.Full.{full_note, full_notes, full_slot, full_slots};
ghost use Rattle.dap_project.specs.Noted as spec;
ghost use Rattle.dap_project.specs.Taken.{cut_from, first_cut, IsFirst};

use crate::cut::cut_size;
use crate::note::Note;
use crate::picked::name_of;
use crate::slot::Slot;
use dap_dds::{dds_begun, put_array_front, put_close, put_dim, put_dims, put_line};
use dap_model::{Array, Decl, Slab};
use dap_slab::part_of;
use fm_base::{Bytes, NoMemory};
use nc_model::Dim;
use std::alloc::Global;

// Dimensions as long as their slabs have indices, one after the other.
fn put_cut_dims(dims: &[Dim], slabs: &[Slab], out: &mut Bytes) -> Result<(), NoMemory>
    requires { AreCuts dims.now slabs.now }
    ensures { OnOk result (out.new ≡ out.old ++ text.dims_text (map cut_dim (zip dims.now slabs.now))) }
{
    let mut at = 0;
    while at < dims.len() && at < slabs.len() {
        let dim = &dims[at];
        put_dim(dim.name.as_slice(), cut_size(dim.size, slabs[at]), out)?;
        at += 1;
    }
    Ok(())
}

// Dimensions as long as slabs leave them. None stand for the whole of each dimension.
#[tactic(auto, using(crate::proofs::CutLemmas::whole_cut, crate::proofs::SlotLemmas::some_whole))]
fn put_left_dims(dims: &[Dim], slabs: &[Slab], out: &mut Bytes) -> Result<(), NoMemory>
    requires { AreCuts dims.now (or_whole dims.now slabs.now) }
    ensures { OnOk result (out.new
        ≡ out.old ++ text.dims_text (map cut_dim (zip dims.now (or_whole dims.now slabs.now)))) }
{
    if slabs.is_empty() {
        return put_dims(dims, out);
    }
    put_cut_dims(dims, slabs, out)
}

// The line of an array with the lengths that slabs leave. None stand for the whole of each dimension.
#[tactic(auto, unfolding(dap_model::specs::Projection::cut_array, dap_model::specs::StructureText::array_text, dap_dds::specs::Lines::array_front))]
fn put_cut(array: &Array, slabs: &[Slab], depth: u32, out: &mut Bytes) -> Result<(), NoMemory>
    requires few { depth < 8 }
    requires cuts { AreCuts array.now.dims (or_whole array.now.dims slabs.now) }
    ensures { OnOk result (out.new
        ≡ out.old ++ text.array_text depth (cut_array (or_whole array.now.dims slabs.now) array.now)) }
{
    put_array_front(array, depth, out)?;
    put_left_dims(array.dims.as_slice(), slabs, out)?;
    out.append(b";\n")
}

// The line of a part, where its slot is taken.
#[tactic(auto, unfolding(dap_model::specs::StructureText::arrays_text))]
fn put_taken(array: &Array, slot: &Slot, depth: u32, out: &mut Bytes) -> Result<(), NoMemory>
    requires few { depth < 8 }
    requires cuts { IsSlotCut array.now (full_slot array.now.dims slot.now) }
    ensures { OnOk result (out.new
        ≡ out.old ++ text.arrays_text depth (spec.cut_of array.now (full_slot array.now.dims slot.now))) }
{
    match slot {
        Slot::Free => Ok(()),
        Slot::Taken(slabs, _) => put_cut(array, slabs.as_slice(), depth, out),
    }
}

// The lines of the parts from a number on whose slots are taken.
fn put_parts(
    decl: &Decl,
    slots: &[Slot],
    from: usize,
    depth: u32,
    out: &mut Bytes,
) -> Result<(), NoMemory>
    requires few { depth < 8 }
    requires cuts { CanBeCut (parts_of decl.now) (full_slots decl.now slots.now) }
    ensures { OnOk result (out.new ≡ out.old ++ text.arrays_text depth (cut_from decl.now slots.now from)) }
{
    let mut part = from;
    while part < slots.len() {
        let Some(array) = part_of(decl, part) else {
            return Ok(());
        };
        put_taken(array, &slots[part], depth, out)?;
        part += 1;
    }
    Ok(())
}

// The first part whose slot is taken, its slabs, and the number of the part behind it.
#[derive(Clone, Copy)]
pub(crate) struct First<'a> {
    pub array: &'a Array,
    pub slabs: &'a [Slab],
    pub next: usize,
}

// The first part whose slot is taken.
fn first_taken<'a>(decl: &'a Decl, slots: &'a [Slot]) -> Option<First<'a>>
    requires { CanBeCut (parts_of decl.now) (full_slots decl.now slots.now) }
    ensures { MatchOption result (cut_from decl.now slots.now 0 ≡ [])
        (λ first. IsFirst decl.now slots.now first) }
{
    let mut part = 0;
    while part < slots.len() {
        let Some(array) = part_of(decl, part) else {
            return None;
        };
        if let Slot::Taken(slabs, _) = &slots[part] {
            let slabs = slabs.as_slice();
            let next = part + 1;
            return Some(First { array, slabs, next });
        }
        part += 1;
    }
    None
}

// A Grid of the parts whose slots are taken: the first one, and those behind it as its maps.
fn put_grid(decl: &Decl, slots: &[Slot], first: First<'_>, out: &mut Bytes) -> Result<(), NoMemory>
    requires cuts { CanBeCut (parts_of decl.now) (full_slots decl.now slots.now) }
    requires first { IsFirst decl.now slots.now first }
    ensures { OnOk result (out.new ≡ out.old
        ++ text.grid_text 1 (name_of decl.now) (first_cut first.entry) (cut_from decl.now slots.now first.entry.next)) }
{
    put_line(1, b"Grid {", out)?;
    put_line(2, b"ARRAY:", out)?;
    put_cut(first.array, first.slabs, 3, out)?;
    put_line(2, b"MAPS:", out)?;
    put_parts(decl, slots, first.next, 3, out)?;
    put_close(1, name_of(decl), out)
}

// A Structure of the parts whose slots are taken.
fn put_structure(decl: &Decl, slots: &[Slot], out: &mut Bytes) -> Result<(), NoMemory>
    requires { CanBeCut (parts_of decl.now) (full_slots decl.now slots.now) }
    ensures { OnOk result (out.new
        ≡ out.old ++ text.structure_text 1 (name_of decl.now) (cut_from decl.now slots.now 0)) }
{
    put_line(1, b"Structure {", out)?;
    put_parts(decl, slots, 0, 2, out)?;
    put_close(1, name_of(decl), out)
}

// A declaration as it is sent: a Grid only where all of it is asked for.
#[tactic(auto, unfolding(crate::specs::Noted::noted_decl, dap_model::specs::StructureText::decl_text))]
fn put_decl(decl: &Decl, note: &Note, out: &mut Bytes) -> Result<(), NoMemory>
    requires { CanBeCut (parts_of decl.now) (full_slots decl.now note.now.slots) }
    ensures { OnOk result (out.new
        ≡ out.old ++ text.decl_text 1 (spec.noted_decl decl.now (full_note decl.now note.now))) }
{
    let slots = note.slots.as_slice();
    let Some(first) = first_taken(decl, slots) else {
        return put_structure(decl, slots, out);
    };
    match decl {
        Decl::Plain(_) => put_cut(first.array, first.slabs, 1, out),
        Decl::Grid { .. } if note.every => put_grid(decl, slots, first, out),
        _ => put_structure(decl, slots, out),
    }
}

// A declaration, where something of it is picked.
#[tactic(auto, unfolding(dap_model::specs::StructureText::decls_text))]
fn put_picked(decl: &Decl, note: &Note, out: &mut Bytes) -> Result<(), NoMemory>
    requires { CanBeCut (parts_of decl.now) (full_slots decl.now note.now.slots) }
    ensures { OnOk result (out.new
        ≡ out.old ++ text.decls_text 1 (spec.decl_of decl.now (full_note decl.now note.now))) }
{
    if note.picked {
        return put_decl(decl, note, out);
    }
    Ok(())
}

// The declarations that are sent.
fn put_decls(decls: &[Decl], notes: &[Note], out: &mut Bytes) -> Result<(), NoMemory>
    requires count { length notes.now ≡ length decls.now }
    requires cuts { AllCanBeCut decls.now (full_notes decls.now notes.now) }
    ensures { OnOk result (out.new
        ≡ out.old ++ text.decls_text 1 (spec.noted_decls decls.now (full_notes decls.now notes.now))) }
{
    for at in 0..notes.len() {
        put_picked(&decls[at], &notes[at], out)?;
    }
    Ok(())
}

// The structure text, under a label.
#[tactic(auto, unfolding(dap_model::specs::StructureText::dds_of))]
pub(crate) fn text_sent(
    alloc: Global,
    label: &[u8],
    decls: &[Decl],
    notes: &[Note],
) -> Result<Bytes, NoMemory>
    requires count { length notes.now ≡ length decls.now }
    requires cuts { AllCanBeCut decls.now (full_notes decls.now notes.now) }
    ensures { IfOk result (λ made. made
        ≡ text.dds_of label.now (spec.noted_decls decls.now (full_notes decls.now notes.now))) }
{
    let mut whole = dds_begun(alloc)?;
    put_decls(decls, notes, &mut whole)?;
    put_close(0, label, &mut whole)?;
    Ok(whole)
}
