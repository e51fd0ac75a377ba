//! Looks at collections in a row.
ghost use Rattle.std.specs.Prelude.{◌≡◌, ◌≢◌, ◌∷◌, ◌++◌, ◌<◌, [], ℕ, Bool, IfOk, OnErr, OnOk, length, map, true};
ghost use Rattle.fm_model.specs.declared.proto.Proto.{Proto as Prototype};
ghost use Rattle.fm_edition.specs.Log.{held_of};
ghost use Rattle.pub_look.specs.History.{Continues, MayHaveLooked};
ghost use Rattle.srv_many.specs.Several.{nth, row_of, Rowed};

use fm_base::{List, NoMemory};
use pub_look::{Look, Query};
use std::alloc::Global;

/// What gives looks at collections in a row, by their index from 0.
pub trait Row {
    /// What is known of each.
    ghost known: { Self → Rowed };

    /// The number of operations seen of the one at an index.
    fn seen_at(&self, index: usize) -> u64
        requires { index < length (known self.now).protos }
        ensures { result ≡ length (nth [] (known self.now).seen index) };

    /// Makes a look at the collection at an index, and does nothing to the others.
    fn ask_at<Q: Query>(
        &mut self,
        alloc: Global,
        index: usize,
        query: &Q,
    ) -> Result<(Q::Out, u64), NoMemory>
        requires some { index < length (known self.old).protos }
        ensures answer { (proto : Prototype) → IfOk result (λ found. Q.says query.now
            (held_of (nth proto (known self.new).protos index) (nth [] (known self.new).seen index)) found.1 found.0) }
        ensures number { IfOk result (λ found. found.1 ≡ length (nth [] (known self.new).seen index)) }
        ensures looked { OnOk result (nth [] (known self.new).looks index
            ≡ nth [] (known self.old).looks index ++ length (nth [] (known self.new).seen index) ∷ []) }
        ensures err { OnErr result (MayHaveLooked (nth [] (known self.old).looks index)
            (length (nth [] (known self.new).seen index)) (nth [] (known self.new).looks index)) }
        ensures later { Continues (nth [] (known self.old).seen index) (nth [] (known self.new).seen index) }
        ensures stays { (still : Bool) → nth still (known self.old).stills index ≡ true
            → nth [] (known self.new).seen index ≡ nth [] (known self.old).seen index }
        ensures others_seen { (other : ℕ) → other ≢ index
            → nth [] (known self.new).seen other ≡ nth [] (known self.old).seen other }
        ensures others_looks { (other : ℕ) → other ≢ index
            → nth [] (known self.new).looks other ≡ nth [] (known self.old).looks other }
        ensures protos { (known self.new).protos ≡ (known self.old).protos }
        ensures stills { (known self.new).stills ≡ (known self.old).stills };
}

impl<K: Look> Row for List<K> {
    ghost known = { row_of K.proto K.still K.log K.looks };

    fn seen_at(&self, index: usize) -> u64 {
        seen_in(self.as_slice(), index)
    }

    fn ask_at<Q: Query>(
        &mut self,
        alloc: Global,
        index: usize,
        query: &Q,
    ) -> Result<(Q::Out, u64), NoMemory> {
        ask_in(alloc, self.items.as_mut_slice(), index, query)
    }
}

// The number seen by the one at an index.
fn seen_in<K: Look>(looks: &[K], index: usize) -> u64
    requires { index < length looks.now }
    ensures { result ≡ length (nth [] (map K.log looks.now) index) }
{
    looks[index].seen()
}

// Makes a look by the one at an index.
fn ask_in<K: Look, Q: Query>(
    alloc: Global,
    looks: &mut [K],
    index: usize,
    query: &Q,
) -> Result<(Q::Out, u64), NoMemory>
    requires some { index < length looks.old }
    ensures answer { (proto : Prototype) → IfOk result (λ found. Q.says query.now
        (held_of (nth proto (map K.proto looks.new) index) (nth [] (map K.log looks.new) index)) found.1 found.0) }
    ensures number { IfOk result (λ found. found.1 ≡ length (nth [] (map K.log looks.new) index)) }
    ensures looked { OnOk result (nth [] (map K.looks looks.new) index
        ≡ nth [] (map K.looks looks.old) index ++ length (nth [] (map K.log looks.new) index) ∷ []) }
    ensures err { OnErr result (MayHaveLooked (nth [] (map K.looks looks.old) index)
        (length (nth [] (map K.log looks.new) index)) (nth [] (map K.looks looks.new) index)) }
    ensures later { Continues (nth [] (map K.log looks.old) index) (nth [] (map K.log looks.new) index) }
    ensures stays { (still : Bool) → nth still (map K.still looks.old) index ≡ true
        → nth [] (map K.log looks.new) index ≡ nth [] (map K.log looks.old) index }
    ensures others_seen { (other : ℕ) → other ≢ index
        → nth [] (map K.log looks.new) other ≡ nth [] (map K.log looks.old) other }
    ensures others_looks { (other : ℕ) → other ≢ index
        → nth [] (map K.looks looks.new) other ≡ nth [] (map K.looks looks.old) other }
    ensures protos { map K.proto looks.new ≡ map K.proto looks.old }
    ensures stills { map K.still looks.new ≡ map K.still looks.old }
{
    looks[index].ask(alloc, query)
}
