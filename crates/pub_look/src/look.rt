//! What gives looks at a collection.
ghost use Rattle.std.specs.Prelude.{◌≡◌, ◌∷◌, ◌++◌, [], ℕ, Bool, IfOk, List, OnErr, OnOk, length, true};
ghost use Rattle.fm_model.specs.declared.op.Op.{Op as Operation};
ghost use Rattle.fm_model.specs.declared.proto.Proto.{Proto as Prototype};
ghost use Rattle.fm_edition.specs.Log.{held_of, IsLog};
ghost use Rattle.pub_look.specs.History.{Continues, MayHaveLooked};

use crate::query::Query;
use fm_base::NoMemory;
use std::alloc::Global;

/// Looks at one collection, each at what its operations had left by then. The list of operations seen only grows.
pub trait Look {
    /// The prototype, which never changes.
    ghost proto: { Self → Prototype };

    /// Whether a look leaves the list of operations seen as it was. It never changes.
    ghost still: { Self → Bool };

    /// The operations seen.
    ghost log: { Self → List Operation };

    /// How many operations were seen at each look.
    ghost looks: { Self → List ℕ };

    /// The number of operations seen. Each of them could be done to what those before it left.
    fn seen(&self) -> u64
        ensures number { result ≡ length (log self.now) }
        ensures sound { IsLog (proto self.now) (log self.now) };

    /// Makes one look, and answers over the edition that all operations seen by then leave. Returns the answer and the
    /// number of these operations.
    fn ask<Q: Query>(&mut self, alloc: Global, query: &Q) -> Result<(Q::Out, u64), NoMemory>
        ensures answer { IfOk result (λ found.
            Q.says query.now (held_of (proto self.new) (log self.new)) found.1 found.0) }
        ensures number { IfOk result (λ found. found.1 ≡ length (log self.new)) }
        ensures looked { OnOk result
            (looks self.new ≡ looks self.old ++ length (log self.new) ∷ []) }

        // Out of memory nothing was answered, and the look was made or not.
        ensures err { OnErr result
            (MayHaveLooked (looks self.old) (length (log self.new)) (looks self.new)) }

        // Either way the list of operations seen only grew.
        ensures later { Continues (log self.old) (log self.new) }
        ensures sound { IsLog (proto self.new) (log self.new) }
        ensures stays { still self.old ≡ true → log self.new ≡ log self.old }
        ensures same_proto { proto self.new ≡ proto self.old }
        ensures same_still { still self.new ≡ still self.old };
}
