//! Reading a constraint.
ghost use Rattle.std.specs.Prelude.{◌≡◌, ◌<◌, ℕ, List as Items, length};
ghost use Rattle.fm_base.specs.Answer.{Answers};
ghost use Rattle.dap_model.specs.ConstraintReading.{before_name, fresh, read_from};
ghost use Rattle.dap_ce.specs.Asked.{as_projection, asked_by};
ghost use Rattle.dap_ce.specs.Phases.{state_of, Fits};

use crate::reader::Reader;
use dap_model::{CeFault, Projection};
use fm_base::{Fail, List};
use std::alloc::Global;

// Reads clauses with a reader at the first byte of the first name.
fn read_with(alloc: Global, text: &[u8], reader: &mut Reader) -> Result<Projection, Fail<CeFault>>
    requires start { (read : Items ℕ) → state_of reader.old read ≡ before_name fresh }
    requires fits { Fits 0 reader.old.phase }
    ensures { Answers (as_projection (read_from (before_name fresh) 0 text.now)) result }
{
    for at in 0..text.len() {
        if !reader.step(alloc, text, at)? {
            return Err(Fail::Fault(reader.fault_at(at as u64, text[at])));
        }
    }
    reader.end(alloc, text)
}

// Reads clauses, of which there is one at least.
fn read_clauses(alloc: Global, text: &[u8]) -> Result<Projection, Fail<CeFault>>
    ensures { Answers (as_projection (read_from (before_name fresh) 0 text.now)) result }
{
    let mut reader = Reader::new(alloc);
    read_with(alloc, text, &mut reader)
}

/// What a constraint asks for, which is decoded already: the clauses of a projection, in their order. An empty text
/// asks for everything and has no clause. A fault is the one that the text has, with its offset.
pub fn read_constraint(alloc: Global, text: &[u8]) -> Result<Projection, Fail<CeFault>>
    ensures { Answers (asked_by text.now) result }
{
    match text.first() {
        None => Ok(Projection {
            clauses: List::new(alloc),
        }),
        Some(b'&') => Err(Fail::Fault(CeFault::Selection(0))),
        Some(_) => read_clauses(alloc, text),
    }
}
