//! What a fault of a clause says of the dataset, and what holds of a clause without one.
ghost use Rattle.std.specs.Prelude.{◌≡◌, Some, None};
ghost use Rattle.dap_model.specs.ClauseFaults.{clause_fault};
ghost use Rattle.dap_model.specs.FaultFacts.{HasClauseFault, HasNoClauseFault};

use crate::declaration::Decl;
use crate::fault::ProjectFault;
use crate::projection::Clause;

/// The fault of a clause after these says what is wrong: that nothing is named; how many slabs stand there, and how
/// many dimensions what is named has; which slab is the first outside its dimension, and the size of that; or that an
/// earlier clause gives a part of the declaration other slabs. Each says that those before it don't hold.
pub fn fault_of_a_clause(decls: &[Decl], earlier: &[Clause], clause: &Clause, fault: &ProjectFault)
    ensures { clause_fault decls.now earlier.now clause.now ≡ Some fault.now
        → HasClauseFault decls.now earlier.now clause.now fault.now }
{}

/// A clause without a fault names something, has no slab or one for each of its dimensions, each within its dimension,
/// and gives each part the slabs that each earlier clause gives it.
pub fn clause_without_a_fault(decls: &[Decl], earlier: &[Clause], clause: &Clause)
    ensures { clause_fault decls.now earlier.now clause.now ≡ None
        → HasNoClauseFault decls.now earlier.now clause.now }
{}
