//! Questions about a collection.
ghost use Rattle.std.specs.Prelude.{ℕ, IfOk};
ghost use Rattle.fm_edition.specs.Held.{Held};

use fm_base::NoMemory;
use fm_edition::Edition;
use std::alloc::Global;

/// A question that any edition answers.
pub trait Query {
    type Out: Drop;

    /// Whether this is the answer over an edition, seen as its prototype and files, after this many operations.
    ghost says: { Self → Held → ℕ → Self.Out → Type 0 };

    /// The answer over an edition, whatever collection it stands for. `revision` is the number of the operations that
    /// left it.
    fn answer(&self, alloc: Global, edition: &Edition, revision: u64) -> Result<Self::Out, NoMemory>
        ensures { IfOk result (λ out. says self.now edition.now revision out) };
}
