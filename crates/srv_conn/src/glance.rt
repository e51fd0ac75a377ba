//! A look for nothing but the number of operations.
ghost use Rattle.std.specs.Prelude.{◌≡◌, ◌++◌, ℕ, ⊤, IfOk, OnErr, OnOk, length};
ghost use Rattle.pub_look.specs.History.{MayHaveLooked};
ghost use Rattle.srv_conn.specs.Out.{first_looks, AreRevisions};
ghost use Rattle.srv_conn.specs.Sight.{AreBehind};

use crate::looks::Looks;
use crate::revisions::Revisions;
use fm_base::NoMemory;
use fm_edition::Edition;
use pub_look::Query;
use std::alloc::Global;

/// The question of which nothing but the revision counts.
#[derive(Clone, Copy)]
struct Glance;

impl Query for Glance {
    type Out = ();

    ghost says = { λ _ _ _ _. ⊤ };

    fn answer(&self, _alloc: Global, _edition: &Edition, _revision: u64) -> Result<(), NoMemory> {
        Ok(())
    }
}

/// Makes one look at each collection, and returns how many operations it sees.
pub fn glance_at_all<K: Looks>(
    alloc: Global,
    looks: &mut K,
    sites: &K::Sites,
) -> Result<Revisions, NoMemory>
    requires fits { K.fits (K.them looks.old) sites.now }
    ensures revisions { IfOk result (λ revisions.
        AreRevisions (K.them looks.old) revisions (K.views looks.new).seen) }
    ensures looked { OnOk result ((number : ℕ) → (K.views looks.new).looks number
        ≡ (K.views looks.old).looks number ++ first_looks (K.them looks.old).count (K.views looks.new).seen number) }
    ensures err { OnErr result ((number : ℕ) → MayHaveLooked ((K.views looks.old).looks number)
        (length ((K.views looks.new).seen number)) ((K.views looks.new).looks number)) }
    ensures later { AreBehind (K.them looks.old) (K.views looks.old).seen (K.views looks.new).seen }
    ensures same { K.them looks.new ≡ K.them looks.old }
{
    let mut revisions = Revisions::new();
    let count = looks.count(sites);
    let mut number = 0;
    while number < count {
        let (_, revision) = looks.ask_in(alloc, number, &Glance)?;
        revisions.set(number, revision);
        number += 1;
    }
    Ok(revisions)
}
