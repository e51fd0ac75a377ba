//! The first fault of a clause on the dataset, after earlier clauses.
ghost use Rattle.std.specs.Prelude.{◌≡◌, ◌≤◌, List, All, IfOk, IsTrue, OnOk, length, map};
ghost use Rattle.dap_model.specs.ClauseFaults as spec;
ghost use Rattle.dap_model.specs.Picking as picking;
ghost use Rattle.dap_model.specs.declared.projection.Clause as clauses;
ghost use Rattle.dap_project.specs.Buckets.{indices_for};
ghost use Rattle.dap_project.specs.Checks.{Agrees, Finds, HasCountable, IsChecked, IsCountable};
ghost use Rattle.dap_project.specs.Full.{full_note, full_notes};
ghost use Rattle.dap_project.specs.Notes.{note_of, picked_of};

use crate::note::{Note, slots_differ};
use crate::part::picked_dims;
use crate::picked::{Choice, Named, index_named, name_of};
use dap_model::{Clause, Decl, ProjectFault, Slab};
use fm_base::{Bytes, Fail, List, NoMemory};
use nc_model::Dim;
use std::alloc::Global;

// A path as it is written, without slabs.
fn path_text(alloc: Global, path: &[Bytes]) -> Result<Bytes, NoMemory>
    ensures { IfOk result (λ text. text ≡ spec.path_text path.now) }
{
    let mut text = Bytes::new(alloc);
    for at in 0..path.len() {
        if at > 0 {
            text.append(b".")?;
        }
        text.append(path[at].as_slice())?;
    }
    Ok(text)
}

// Slabs stand there, and not one for each dimension.
#[tactic(auto, unfolding(dap_model::specs::ClauseFaults::rank_fault))]
fn check_rank(
    alloc: Global,
    path: &[Bytes],
    dims: &[Dim],
    slabs: &[Slab],
) -> Result<(), Fail<ProjectFault>>
    ensures fault { Finds (spec.rank_fault (spec.path_text path.now) dims.now slabs.now) result }
    ensures few { OnOk result (length slabs.now ≤ length dims.now) }
{
    if slabs.is_empty() || slabs.len() == dims.len() {
        return Ok(());
    }
    Err(Fail::Fault(ProjectFault::SlabRank {
        name: path_text(alloc, path)?,
        got: slabs.len() as u64,
        rank: dims.len() as u64,
    }))
}

// Whether a slab lies within a size.
#[tactic(auto, unfolding(dap_model::specs::ClauseFaults::is_within))]
fn is_within(size: u64, slab: Slab) -> bool
    ensures within { result ≡ spec.is_within size slab }
    ensures countable { IsTrue result → IsCountable slab }
{
    if slab.stride == 0 || slab.start > slab.stop {
        return false;
    }
    slab.stop < size
}

// A slab doesn't lie within its dimension.
#[tactic(auto, unfolding(dap_model::specs::ClauseFaults::range_fault))]
fn check_range(
    alloc: Global,
    path: &[Bytes],
    dims: &[Dim],
    slabs: &[Slab],
) -> Result<(), Fail<ProjectFault>>
    requires { length slabs.now ≤ length dims.now }
    ensures fault { Finds (spec.range_fault (spec.path_text path.now) 0 dims.now slabs.now) result }
    ensures countable { OnOk result (All IsCountable slabs.now) }
{
    for at in 0..slabs.len() {
        if !is_within(dims[at].size, slabs[at]) {
            return Err(Fail::Fault(ProjectFault::SlabRange {
                name: path_text(alloc, path)?,
                dim: at as u64,
                size: dims[at].size,
            }));
        }
    }
    Ok(())
}

// An earlier clause gives other slabs to a part of the declaration, of which this one picks something.
fn check_conflict(
    alloc: Global,
    decl: &Decl,
    note: &Note,
    clause: &Clause,
    choice: Choice,
) -> Result<(), Fail<ProjectFault>>
    requires { picked_of choice ≡ picking.picked_by decl.now clause.now.path }
    ensures agrees { OnOk result (Agrees decl.now clause.now (full_note decl.now note.now)) }
    ensures fault { (earlier : List clauses.Clause) → full_note decl.now note.now ≡ note_of earlier decl.now
        → Finds (spec.conflict_fault decl.now earlier clause.now) result }
{
    if slots_differ(decl, clause.slabs.as_slice(), choice, note.slots.as_slice()) {
        let name = Bytes::copy_of(alloc, name_of(decl))?;
        return Err(Fail::Fault(ProjectFault::SlabConflict(name)));
    }
    Ok(())
}

// The first fault of a clause on the declaration that it names.
#[tactic(auto, unfolding(dap_model::specs::ClauseFaults::decl_fault))]
fn check_decl(
    alloc: Global,
    decl: &Decl,
    note: &Note,
    clause: &Clause,
    choice: Choice,
) -> Result<(), Fail<ProjectFault>>
    requires { picked_of choice ≡ picking.picked_by decl.now clause.now.path }
    ensures fault { (earlier : List clauses.Clause) → full_note decl.now note.now ≡ note_of earlier decl.now
        → Finds (spec.decl_fault decl.now earlier clause.now) result }
    ensures countable { OnOk result (HasCountable clause.now) }
    ensures agrees { OnOk result (Agrees decl.now clause.now (full_note decl.now note.now)) }
{
    let path = clause.path.as_slice();
    let slabs = clause.slabs.as_slice();
    let dims = picked_dims(decl, choice);
    check_rank(alloc, path, dims, slabs)?;
    check_range(alloc, path, dims, slabs)?;
    check_conflict(alloc, decl, note, clause, choice)
}

// The first fault of a clause, which may pick something of the declarations at these indices alone, or what it names.
#[tactic(auto, unfolding(dap_model::specs::ClauseFaults::clause_fault))]
pub(crate) fn check_clause(
    alloc: Global,
    decls: &[Decl],
    indices: &[usize],
    notes: &[Note],
    clause: &Clause,
) -> Result<Named, Fail<ProjectFault>>
    requires count { length notes.now ≡ length decls.now }
    requires indices { indices.now ≡ indices_for decls.now clause.now.path }
    ensures fault { (earlier : List clauses.Clause) → full_notes decls.now notes.now ≡ map (note_of earlier) decls.now
        → Finds (spec.clause_fault decls.now earlier clause.now) result }
    ensures countable { OnOk result (HasCountable clause.now) }
    ensures checked { IfOk result (IsChecked decls.now (full_notes decls.now notes.now) clause.now) }
{
    match index_named(decls, indices, clause.path.as_slice()) {
        Some(named) => {
            let at = named.at;
            match check_decl(alloc, &decls[at], &notes[at], clause, named.choice) {
                Ok(()) => Ok(named),
                Err(fail) => Err(fail),
            }
        }
        None => {
            let name = path_text(alloc, clause.path.as_slice())?;
            Err(Fail::Fault(ProjectFault::NoSuchVariable(name)))
        }
    }
}
