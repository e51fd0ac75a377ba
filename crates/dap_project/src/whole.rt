//! The notes by which all declarations are sent whole.
ghost use Rattle.std.specs.Prelude.{◌≡◌, [], ◌∷◌, IfOk, map};
ghost use Rattle.dap_model.specs.Projection.{whole_clause};
ghost use Rattle.dap_project.specs.Full.{full_note, full_notes};
ghost use Rattle.dap_project.specs.Notes.{note_for, note_of};

use crate::note::Note;
use crate::picked::{name_of, picked_by};
use dap_model::{Clause, Decl};
use fm_base::{Bytes, List, NoMemory};
use std::alloc::Global;

// The clause that asks for the whole of a declaration.
fn whole_clause(alloc: Global, decl: &Decl) -> Result<Clause, NoMemory>
    ensures { IfOk result (λ clause. clause ≡ whole_clause decl.now) }
{
    let name = Bytes::copy_of(alloc, name_of(decl))?;
    let mut items = Vec::with_capacity(alloc, 1)?;
    items.push(name)?;
    Ok(Clause {
        path: List { items },
        slabs: List::new(alloc),
    })
}

// What that clause asks of the declaration.
#[tactic(auto, unfolding(crate::specs::Notes::note_from), using(crate::proofs::FullLemmas::full_fresh))]
fn whole_note(alloc: Global, decl: &Decl) -> Result<Note, NoMemory>
    ensures { IfOk result (λ note. full_note decl.now note ≡ note_of (whole_clause decl.now ∷ []) decl.now) }
{
    let mut note = Note::fresh(alloc, decl)?;
    let whole = whole_clause(alloc, decl)?;
    let choice = picked_by(decl, whole.path.as_slice());
    let noted = note.add(alloc, decl, &whole, choice, false);
    drop(whole);
    noted?;
    Ok(note)
}

// The notes of all declarations where there is no clause.
#[tactic(auto, unfolding(crate::specs::Full::full_notes))]
pub(crate) fn whole_notes(alloc: Global, decls: &[Decl]) -> Result<List<Note>, NoMemory>
    ensures { IfOk result (λ notes. full_notes decls.now notes ≡ map (note_for []) decls.now) }
{
    let items = Vec::with_capacity(alloc, decls.len())?;
    let mut notes = List { items };
    for decl in decls {
        notes.push(whole_note(alloc, decl)?)?;
    }
    Ok(notes)
}
