//! A text is a constraint with one list of clauses, or has one fault.
ghost use Rattle.std.specs.Prelude.{◌≡◌, ℕ, ◌^◌, ◌<◌, ◌↔◌, Ok, Err, MatchResult};
ghost use Rattle.dap_model.specs.Constraint.{Constrains, HasFault, SpellsNumber};
ghost use Rattle.dap_model.specs.ConstraintReading.{constraint_of};

use crate::fault::CeFault;
use crate::projection::Clause;

/// Reading a text gives clauses exactly where the text is a constraint that asks for them, so no text asks for two
/// lists of clauses.
pub fn constraint_is_read(text: &[u8], clauses: &[Clause], others: &[Clause])
    ensures read { constraint_of text.now ≡ Ok clauses.now ↔ Constrains text.now clauses.now }
    ensures one { Constrains text.now clauses.now → Constrains text.now others.now
        → clauses.now ≡ others.now }
{}

/// Reading a text gives a fault exactly where the text has it, so a text has one fault at most.
pub fn fault_is_read(text: &[u8], fault: CeFault, other: CeFault)
    ensures read { constraint_of text.now ≡ Err fault ↔ HasFault text.now fault }
    ensures one { HasFault text.now fault → HasFault text.now other → fault ≡ other }
{}

/// Each text is a constraint or has a fault, and none is and has both.
pub fn constraint_or_fault(text: &[u8], clauses: &[Clause], fault: CeFault)
    ensures either { MatchResult (constraint_of text.now) (λ read. Constrains text.now read)
        (λ found. HasFault text.now found) }
    ensures never_both { Constrains text.now clauses.now → HasFault text.now fault → ⊥ }
{}

/// The numbers of a constraint are below 10^18.
pub fn number_fits(text: &[u8])
    ensures { (number : ℕ) → SpellsNumber text.now number → number < 10 ^ 18 }
{}
