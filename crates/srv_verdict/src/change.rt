//! What may be asked of a collection.
ghost use Rattle.std.specs.Prelude.{◌≡◌, ◌+◌, ◌≤◌, ◌∷◌, ◌++◌, [], ℕ, List, IfOk, IsFalse, IsTrue, OnErr, length, take, true};
ghost use Rattle.fm_edition.specs.Log.{held_of};
ghost use Rattle.fm_model.specs.declared.op.Op.{Op as Operation};
ghost use Rattle.fm_model.specs.declared.proto.Proto.{Proto as Prototype};
ghost use Rattle.srv_verdict.specs.Verdicts.{IsNumbered};

use fm_base::NoMemory;
use pub_look::Query;
use pub_snap::{Desk, Name, Share};
use std::alloc::Global;
use std::sync::Wait;

/// A change that is asked of a collection: an operation, the question whether nothing is to be done, and the verdict.
/// As a `Query` it asks whether there is no room for the file that would come, or nothing that would go.
pub trait Change: Query<Out = bool> {
    type Verdict: Copy;

    /// The operation.
    ghost operation: { Self → Operation };

    /// A desk over this prototype may be asked for it.
    ghost fits: { Self → Prototype → Type 0 };

    /// Whether this is the verdict, by the operations that were seen.
    ghost judges: { Self → List Operation → Self.Verdict → Type 0 };

    /// The number of the operation that a verdict says, if it says one.
    ghost number_of: { Self.Verdict → List ℕ };

    /// The number of operations at the look that a verdict speaks of, if it speaks of one.
    ghost look_of: { Self.Verdict → List ℕ };

    /// Asks a desk for the operation. The answer is whether it was published; else nothing changed.
    fn ask_desk<N: Name, R: Wait>(
        &self,
        rt: &R,
        alloc: Global,
        desk: &mut Desk<N>,
        share: &mut Share<N>,
    ) -> Result<bool, NoMemory>
        requires { fits self.now N.proto }
        ensures done { IfOk result (λ done. IsTrue done
            → (desk.new ≡ desk.old ++ operation self.now ∷ []) × (share.new ≡ share.old + 1)) }
        ensures undone { IfOk result (λ done. IsFalse done → (desk.new ≡ desk.old) × (share.new ≡ share.old)) }
        ensures err { OnErr result ((desk.new ≡ desk.old) × (share.new ≡ share.old)) };

    /// The verdict that it is the operation of this number.
    fn when_done(&self, number: u64) -> Self::Verdict
        ensures right { (ops : List Operation) → IsNumbered ops number (operation self.now)
            → judges self.now ops result }
        ensures number { number_of result ≡ number ∷ [] }
        ensures look { look_of result ≡ [] };

    /// The verdict that a look at this many operations showed that nothing is to be done.
    fn when_needless(&self, count: u64) -> Self::Verdict
        ensures right { (proto : Prototype) (ops : List Operation) → count ≤ length ops
            → Self.says self.now (held_of proto (take count ops)) count true → judges self.now ops result }
        ensures number { number_of result ≡ [] }
        ensures look { look_of result ≡ count ∷ [] };

    /// The verdict that memory ran out.
    fn when_short(&self) -> Self::Verdict
        ensures right { (ops : List Operation) → judges self.now ops result }
        ensures number { number_of result ≡ [] }
        ensures look { look_of result ≡ [] };
}
