//! The projection of a dataset.
ghost use Rattle.std.specs.Prelude.{◌≡◌, [], List, All, Err, IfOk, OnOk, length, map};
ghost use Rattle.fm_base.specs.Answer.{Answers, AnswersAs, ForFault};
ghost use Rattle.dap_model.specs.ClauseFaults.{clause_fault, first_fault};
ghost use Rattle.dap_model.specs.Projection.{projection_of};
ghost use Rattle.dap_model.specs.declared.projection.Clause as clauses;
ghost use Rattle.dap_project.specs.Buckets.{AreBuckets};
ghost use Rattle.dap_project.specs.Checks.{Finds, HasCountable};
ghost use Rattle.dap_project.specs.Full.{full_notes};
ghost use Rattle.dap_project.specs.Noted.{notes_or_fault};
ghost use Rattle.dap_project.specs.Notes.{note_of, notes_after};
ghost use Rattle.dap_project.specs.Sending.{text_and_parts, AreNotesFor};

use crate::check::check_clause;
use crate::index::Index;
use crate::note::{Note, fresh_notes, note_clause};
use crate::sent::{all_sent, parts_sent};
use crate::text::text_sent;
use crate::whole::whole_notes;
use dap_model::{Clause, Decl, ProjectFault, Projected, Projection, Sent};
use fm_base::{Bytes, Fail, List};
use std::alloc::Global;

// Notes what a clause asks of each declaration, unless it has a fault.
fn add_clause(
    alloc: Global,
    decls: &[Decl],
    index: &Index,
    notes: &mut List<Note>,
    clause: &Clause,
) -> Result<(), Fail<ProjectFault>>
    requires count { length notes.old ≡ length decls.now }
    requires index { AreBuckets decls.now index.now.buckets }
    ensures fault { (earlier : List clauses.Clause) → full_notes decls.now notes.old ≡ map (note_of earlier) decls.now
        → Finds (clause_fault decls.now earlier clause.now) result }
    ensures notes { OnOk result (full_notes decls.now notes.new
        ≡ notes_after clause.now decls.now (full_notes decls.now notes.old)) }
    ensures countable { OnOk result (HasCountable clause.now) }
{
    let indices = index.indices(clause.path.as_slice());
    let checked = check_clause(alloc, decls, indices, notes.as_slice(), clause)?;
    let noted = notes.items.as_mut_slice();
    note_clause(alloc, decls, indices, noted, clause, checked)?;
    Ok(())
}

// What clauses ask of each declaration, or the first fault of the first clause at fault.
fn notes_of(
    alloc: Global,
    decls: &[Decl],
    clauses: &[Clause],
) -> Result<List<Note>, Fail<ProjectFault>>
    ensures notes { AnswersAs (full_notes decls.now) (notes_or_fault (map (note_of clauses.now) decls.now)
        (first_fault decls.now [] clauses.now)) result }
    ensures countable { OnOk result (All HasCountable clauses.now) }
{
    let index = Index::of(alloc, decls)?;
    let mut notes = fresh_notes(alloc, decls)?;
    for clause in clauses {
        add_clause(alloc, decls, &index, &mut notes, clause)?;
    }
    Ok(notes)
}

// The notes by which each declaration is sent, or the first fault of the first clause at fault.
fn notes_for(
    alloc: Global,
    decls: &[Decl],
    clauses: &[Clause],
) -> Result<List<Note>, Fail<ProjectFault>>
    ensures notes { IfOk result (λ notes. AreNotesFor decls.now clauses.now notes) }
    ensures fault { ForFault result (λ fault. projection_of decls.now clauses.now ≡ Err fault) }
{
    if clauses.is_empty() {
        return Ok(whole_notes(alloc, decls)?);
    }
    notes_of(alloc, decls, clauses)
}

/// What is sent of a dataset's declarations for a constraint: the declarations that it names, in their order, with the
/// lengths that their slabs leave, and their parts with their slabs. Without a clause all is sent whole. A fault is the
/// first of the first clause that has one.
///
/// Where the number of a declaration or of a part doesn't fit 32 bits, memory is said to have run out.
pub fn project(
    alloc: Global,
    decls: &[Decl],
    asked: &Projection,
) -> Result<Projected, Fail<ProjectFault>>
    ensures { Answers (projection_of decls.now asked.now.clauses) result }
{
    let notes = notes_for(alloc, decls, asked.clauses.as_slice())?;
    Ok(all_sent(alloc, decls, notes.as_slice())?)
}

/// The structure text of what is sent of a dataset's declarations for a constraint, under a label, and the parts that
/// are sent. They are those of `project`, and so are the faults; no declaration is made.
///
/// Where the number of a declaration or of a part doesn't fit 32 bits, memory is said to have run out.
pub fn project_text(
    alloc: Global,
    label: &[u8],
    decls: &[Decl],
    asked: &Projection,
) -> Result<(Bytes, List<Sent>), Fail<ProjectFault>>
    ensures { Answers (text_and_parts label.now (projection_of decls.now asked.now.clauses)) result }
{
    let notes = notes_for(alloc, decls, asked.clauses.as_slice())?;
    let text = text_sent(alloc, label, decls, notes.as_slice())?;
    let sent = parts_sent(alloc, decls, notes.as_slice())?;
    Ok((text, sent))
}
