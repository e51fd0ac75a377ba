//! Constraints: names with dots, slabs as `start:stride:stop`, and clauses with semicolons.

use dap_ce::read_constraint;
use dap_model::{CeFault, Clause, Slab};
use fm_base::Fail;
use row_text::Said;
use std::alloc::Global;

/// Puts the clauses of a constraint, or its fault with the offset.
pub fn put_constraint(alloc: Global, text: &[u8], out: &mut Said) {
    match read_constraint(alloc, text) {
        Ok(projection) => {
            put_clauses(projection.clauses.as_slice(), out);
            drop(projection);
        }
        Err(Fail::Fault(fault)) => put_fault(fault, out),
        Err(Fail::NoMemory) => out.run_short(),
    }
}

fn put_fault(fault: CeFault, out: &mut Said) {
    let (CeFault::BadConstraint(at) | CeFault::Selection(at)) = fault;
    out.put_number("refused ", fault.code());
    out.put_number(" at ", at);
}

fn put_clauses(clauses: &[Clause], out: &mut Said) {
    for (index, clause) in clauses.iter().enumerate() {
        out.put(if index == 0 { "" } else { "; " });
        put_clause(clause, out);
    }
}

fn put_clause(clause: &Clause, out: &mut Said) {
    for (index, name) in clause.path.as_slice().iter().enumerate() {
        out.put(if index == 0 { "" } else { "." });
        out.put_shown(name.as_slice());
    }
    put_slabs(clause.slabs.as_slice(), out);
}

// Appends slabs, each behind a blank.
fn put_slabs(slabs: &[Slab], out: &mut Said) {
    for slab in slabs {
        out.put_number(" ", slab.start);
        out.put_number(":", slab.stride);
        out.put_number(":", slab.stop);
    }
}
