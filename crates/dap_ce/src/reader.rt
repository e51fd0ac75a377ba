//! A reader of constraints, which takes one byte after the other.
ghost use Rattle.std.specs.Prelude.{◌≡◌, ◌⊎◌, ◌∷◌, [], ℕ, ◌+◌, ◌^◌, ◌<◌, ◌≤◌, List, Some, None, length, drop, take, slice_index};
ghost use Rattle.std.specs.Prelude.{true, false, IfOk, IsTrue, OnOk};
ghost use Rattle.fm_base.specs.Answer.{Answers};
ghost use Rattle.dap_model.specs.ConstraintReading.{before_name, clauses_at, ended_at, fault_at, fresh, next_clause};
ghost use Rattle.dap_model.specs.ConstraintReading.{step, step_name, step_number, step_on, with_name};
ghost use Rattle.dap_ce.specs.Asked.{as_projection};
ghost use Rattle.dap_ce.specs.Phases.{begun_of, numbers_of, state_of, Fits, LeadsTo};

use crate::phase::{Numbers, Phase, next_number, slab_with};
use dap_model::{CeFault, Clause, Projection, Slab};
use fm_base::{Bytes, Fail, List, NoMemory, is_name_byte};
use std::alloc::Global;
use std::mem;

// The clauses that are read, the path and the slabs of the clause that is being read, and where reading stands in it.
#[derive(Drop)]
pub(crate) struct Reader {
    pub(crate) clauses: List<Clause>,
    pub(crate) path: List<Bytes>,
    pub(crate) slabs: List<Slab>,
    pub(crate) phase: Phase,
}

// A path of one name, without room for another.
fn alone(alloc: Global, name: Bytes) -> Result<List<Bytes>, NoMemory>
    ensures { IfOk result (λ path. path ≡ name ∷ []) }
{
    let mut items = Vec::with_capacity(alloc, 1)?;
    items.push(name)?;
    Ok(List { items })
}

impl Reader {
    // At the first byte of the first name.
    pub(crate) fn new(alloc: Global) -> Reader
        ensures start { (read : List ℕ) → state_of result read ≡ before_name fresh }
        ensures fits { Fits 0 result.phase }
    {
        Reader {
            clauses: List::new(alloc),
            path: List::new(alloc),
            slabs: List::new(alloc),
            phase: Phase::BeforeName,
        }
    }

    // Ends the clause that is being read.
    fn end_clause(&mut self, alloc: Global) -> Result<(), NoMemory>
        ensures { OnOk result (begun_of self.new ≡ next_clause (begun_of self.old)) }
    {
        let path = mem::replace(&mut self.path, List::new(alloc));
        let slabs = mem::replace(&mut self.slabs, List::new(alloc));
        self.clauses.push(Clause { path, slabs })
    }

    // Takes what may stand behind a clause: the mark of a slab, or that of the next clause.
    #[tactic(auto, unfolding(dap_model::specs::ConstraintReading::step_on))]
    fn follow(&mut self, alloc: Global, byte: u8) -> Result<(), NoMemory>
        requires { (byte ≡ 91) ⊎ (byte ≡ 44) }
        ensures step { (read : List ℕ) → OnOk result
            (step_on (begun_of self.old) byte ≡ Some (state_of self.new read)) }
        ensures fits { (at : ℕ) → OnOk result (Fits at self.new.phase) }
    {
        if byte == b'[' {
            self.phase = Phase::BeforeNumber(Numbers::Zero);
            return Ok(());
        }
        self.end_clause(alloc)?;
        self.phase = Phase::BeforeName;
        Ok(())
    }

    // Takes a byte behind a slab.
    #[tactic(auto, unfolding(dap_model::specs::ConstraintReading::step_on))]
    fn after_slab(&mut self, alloc: Global, byte: u8) -> Result<bool, NoMemory>
        ensures step { (read : List ℕ) → IfOk result
            (LeadsTo (step_on (begun_of self.old) byte) (state_of self.new read)) }
        ensures fits { (at : ℕ) → IfOk result (λ took. IsTrue took → Fits at self.new.phase) }
        ensures kept { IfOk result (λ took. took ≡ false → self.new ≡ self.old) }
    {
        if byte == b'[' || byte == b',' {
            self.follow(alloc, byte)?;
            return Ok(true);
        }
        Ok(false)
    }

    // Takes a byte behind some of a name, which begins at an offset of the text.
    #[tactic(auto, unfolding(dap_model::specs::ConstraintReading::step_name))]
    fn in_name(
        &mut self,
        alloc: Global,
        text: &[u8],
        from: usize,
        at: usize,
    ) -> Result<bool, NoMemory>
        requires offset { at < length text.now }
        requires begun { from ≤ at }
        requires phase { self.old.phase ≡ Phase.InName from }
        ensures step { IfOk result (LeadsTo
            (step_name (begun_of self.old) (drop from (take at text.now)) (slice_index text.now at))
            (state_of self.new (take (at + 1) text.now))) }
        ensures fits { IfOk result (λ took. IsTrue took → Fits (at + 1) self.new.phase) }
        ensures kept { IfOk result (λ took. took ≡ false → self.new ≡ self.old) }
    {
        let byte = text[at];
        if is_name_byte(byte) {
            return Ok(true);
        }
        if byte != b'.' && byte != b'[' && byte != b',' {
            return Ok(false);
        }
        self.end_name(alloc, &text[from..at])?;
        if byte == b'.' {
            self.phase = Phase::BeforeName;
        } else {
            self.follow(alloc, byte)?;
        }
        Ok(true)
    }

    // Ends a name of the path. The first takes room for itself alone, since most paths have one name.
    fn end_name(&mut self, alloc: Global, name: &[u8]) -> Result<(), NoMemory>
        ensures { OnOk result (begun_of self.new ≡ with_name (begun_of self.old) name.now) }
    {
        let name = Bytes::copy_of(alloc, name)?;
        if self.path.is_empty() {
            self.path = alone(alloc, name)?;
            return Ok(());
        }
        self.path.push(name)
    }

    // Takes a byte behind some digits of a number.
    #[tactic(auto, unfolding(dap_model::specs::ConstraintReading::step_number))]
    fn in_number(
        &mut self,
        numbers: Numbers,
        count: u64,
        value: u64,
        byte: u8,
    ) -> Result<bool, NoMemory>
        requires few { count ≤ 18 }
        requires value { value < 10 ^ count }
        ensures step { (read : List ℕ) → IfOk result (LeadsTo
            (step_number (begun_of self.old) (numbers_of numbers) count value byte)
            (state_of self.new read)) }
        ensures fits { (at : ℕ) → IfOk result (λ took. IsTrue took → Fits at self.new.phase) }
        ensures kept { IfOk result (λ took. took ≡ false → self.new ≡ self.old) }
    {
        if byte.is_ascii_digit() && count < 18 {
            self.phase = Phase::InNumber(numbers, count + 1, value * 10 + u64::from(byte - b'0'));
            return Ok(true);
        }
        if byte == b']' {
            self.slabs.push(slab_with(numbers, value))?;
            self.phase = Phase::AfterSlab;
            return Ok(true);
        }
        match next_number(numbers, value) {
            Some(before) if byte == b':' => {
                self.phase = Phase::BeforeNumber(before);
                Ok(true)
            }
            _ => Ok(false),
        }
    }

    // Takes the byte at an offset, if some constraint goes on with it; else nothing changes.
    #[tactic(auto, unfolding(dap_model::specs::ConstraintReading::step, dap_model::specs::ConstraintReading::step_to_name))]
    pub(crate) fn step(&mut self, alloc: Global, text: &[u8], at: usize) -> Result<bool, NoMemory>
        requires offset { at < length text.now }
        requires fits { Fits at self.old.phase }
        ensures step { IfOk result (LeadsTo
            (step (state_of self.old (take at text.now)) (slice_index text.now at))
            (state_of self.new (take (at + 1) text.now))) }
        ensures fits { IfOk result (λ took. IsTrue took → Fits (at + 1) self.new.phase) }
        ensures kept { IfOk result (λ took. took ≡ false → self.new ≡ self.old) }
    {
        let byte = text[at];
        match self.phase {
            Phase::BeforeName => {
                let begins = is_name_byte(byte);
                if begins {
                    self.phase = Phase::InName(at);
                }
                Ok(begins)
            }
            Phase::InName(from) => self.in_name(alloc, text, from, at),
            Phase::BeforeNumber(numbers) => {
                let begins = byte.is_ascii_digit();
                if begins {
                    self.phase = Phase::InNumber(numbers, 1, u64::from(byte - b'0'));
                }
                Ok(begins)
            }
            Phase::InNumber(numbers, count, value) => self.in_number(numbers, count, value, byte),
            Phase::AfterSlab => self.after_slab(alloc, byte),
        }
    }

    // What is wrong with a byte at an offset with which no constraint goes on.
    #[tactic(auto, unfolding(dap_model::specs::ConstraintReading::clauses_at))]
    pub(crate) fn fault_at(&self, at: u64, byte: u8) -> CeFault
        ensures { (read : List ℕ) → result ≡ fault_at (state_of self.now read) at byte }
    {
        match self.phase {
            Phase::InName(_) | Phase::AfterSlab if byte == b'&' => CeFault::Selection(at),
            _ => CeFault::BadConstraint(at),
        }
    }

    // What is read, at the end of the text.
    #[tactic(auto, unfolding(dap_model::specs::ConstraintReading::clauses_at))]
    pub(crate) fn end(&mut self, alloc: Global, text: &[u8]) -> Result<Projection, Fail<CeFault>>
        requires { Fits (length text.now) self.old.phase }
        ensures { Answers (as_projection (ended_at (length text.now)
            (clauses_at (state_of self.old text.now)))) result }
    {
        match self.phase {
            Phase::InName(from) => self.end_name(alloc, &text[from..])?,
            Phase::AfterSlab => {}
            _ => return Err(Fail::Fault(CeFault::BadConstraint(text.len() as u64))),
        }
        self.end_clause(alloc)?;
        Ok(Projection {
            clauses: mem::replace(&mut self.clauses, List::new(alloc)),
        })
    }
}
