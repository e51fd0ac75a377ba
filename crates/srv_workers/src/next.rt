//! A desk with others behind it, all behind another one.
ghost use Rattle.std.specs.Prelude.{◌≡◌, ◌+◌, ◌<◌, ◌≤◌, ◌^◌, IfOk, replicate, suc, ℕ};
ghost use Rattle.pub_snap.specs.Opening.{IsNamed, unused};
ghost use Rattle.srv_many.specs.Several.{views_in};
ghost use Rattle.srv_workers.specs.Both.{all_collections, first_then, publisher_of, rowed_with};
ghost use Rattle.srv_workers.specs.Desks.{first_of};
ghost use Rattle.srv_workers.specs.Given.{AreGivenOut, IsVacant};
ghost use Rattle.srv_workers.specs.Opened.{FirstAnd, IsSized};
ghost use Rattle.srv_workers.specs.Places.{HasPlaces};

use crate::behind::Behind;
use crate::both::{And, OneOf};
use crate::desks::Desks;
use crate::eyes::AllEyes;
use crate::given::{Given, Vacant, vacant_for};
use crate::joining::given_all;
use crate::one::OwnHand;
use crate::own::OwnPass;
use crate::places::{Places, given_at, places_for};
use crate::slots::{Slots, take_off};
use fm_base::{Arc, List, NoMemory};
use fm_model::Proto;
use pub_look::Look;
use pub_snap::{Blank, Desk, Name, Pass, Receipt, Share};
use srv_many::Several;
use std::alloc::Global;
use std::sync::Wait;

// Places of the first desk, and room for what the workers of all desks are given.
#[derive(Drop)]
struct Joint<A, P, H> {
    first: A,
    all: Vacant<P, H>,
}

// Places of the first of `desks` desks, which is over this prototype, and room for all.
fn joint_for<N: Name, P: Drop, H: Drop>(
    alloc: Global,
    proto: &Arc<Proto>,
    desks: usize,
    doors: usize,
    clocks: usize,
) -> Result<Joint<Places<N>, P, H>, NoMemory>
    requires { (doors < 2 ^ 32) × (clocks ≤ 1) }
    ensures first { IfOk result (λ joint. HasPlaces proto.now doors 1 clocks joint.first) }
    ensures all { IfOk result (λ joint. IsVacant doors desks desks joint.all) }
{
    let all = vacant_for(alloc, doors, desks, desks)?;
    match places_for(alloc, proto, doors, 1, clocks) {
        Ok(first) => Ok(Joint { first, all }),
        Err(NoMemory) => {
            drop(all);
            Err(NoMemory)
        }
    }
}

// A desk that was opened, its passes and its shares.
type OpenDesk<N> = (Desk<N>, List<Pass<N>>, List<Share<N>>);

// A pass of a desk, and those of others.
type AllPasses<N, X> = Several<OwnPass<N>, <X as Behind>::Passes>;

// A hand of a desk, or of one of others.
type AnyHand<N, X> = OneOf<OwnHand<N>, <X as Desks>::Hand>;

// Places of a desk, and room for what the workers of it and of others are given.
type AllJoint<N, X> = Joint<Places<N>, AllPasses<N, X>, AnyHand<N, X>>;

// Opens the desks behind one that was opened, and gives out what there is of all. Where memory runs out, that one is
// closed again.
fn open_behind<R: Wait, N: Name, X: Behind>(
    rt: &R,
    alloc: Global,
    first: OpenDesk<N>,
    blanks: List<Blank>,
    protos: &[Arc<Proto>],
    joint: AllJoint<N, X>,
    doors: usize,
    clocks: usize,
) -> Result<(And<Desk<N>, X>, Given<AllPasses<N, X>, AnyHand<N, X>>), NoMemory>
    requires passes { first.1 ≡ replicate (doors + (1 + clocks)) (unused N.proto) }
    requires shares { first.2 ≡ replicate (1 + clocks) 0 }
    requires parts { N.parts ≡ 1 + clocks }
    requires blanks { X.are_blank doors clocks blanks }
    requires protos { protos.now ≡ first_of X.means.them.count X.means.them.proto }
    requires first { HasPlaces N.proto doors 1 clocks joint.first }
    requires all { IsVacant doors (suc X.means.them.count) (suc X.means.them.count) joint.all }
    requires few { (doors < 2 ^ 32) × (clocks ≤ 1) }
    ensures given { IfOk result (λ opened. AreGivenOut (all_collections N.proto X.means.them)
        (λ passes. views_in (rowed_with N.proto X.Passes.known passes)) (publisher_of X.means.publisher)
        doors clocks opened.1) }
    ensures parts { IfOk result (λ _. (number : ℕ) → number < suc X.means.them.count
        → first_then N.parts X.parts number ≡ 1 + clocks) }
{
    let (desk, passes, shares) = first;
    match X::open(rt, alloc, blanks, protos, doors, clocks) {
        Ok((others, given)) => {
            let Joint { first: own, all } = joint;
            let own = given_at(passes, shares, own, doors, 1, clocks);
            let desks = And {
                first: desk,
                others,
            };
            Ok((desks, given_all(own, given, all)))
        }
        Err(NoMemory) => {
            Desk::close(desk, rt, shares);
            drop(passes);
            drop(joint);
            Err(NoMemory)
        }
    }
}

impl<N: Name + Send + Sync, X: Behind> Behind for And<Desk<N>, X> {
    type Passes = Several<OwnPass<N>, X::Passes>;

    ghost are_blank = { λ doors clocks blanks. FirstAnd (λ blank.
        IsNamed blank N.book N.name N.proto N.parts × IsSized doors clocks blank) (X.are_blank doors clocks) blanks };

    fn know() {
        X::know();
    }

    fn learn_passes(passes: &mut Self::Passes, all: &Self::Receipts) -> bool {
        X::know();
        let level = X::learn_passes(&mut passes.others, &all.others);
        passes.first.learn(&all.first);
        if !level {
            return false;
        }
        passes.first.seen() == all.first.revision()
    }

    fn eyes(passes: Self::Passes, protos: List<Arc<Proto>>) -> Self::Eyes {
        X::know();
        AllEyes::of(passes, protos)
    }

    fn back(alloc: Global, shares: usize) -> Result<Self::Back, NoMemory> {
        let others = X::back(alloc, shares)?;
        let first = Slots::with_room(alloc, shares)?;
        Ok(And { first, others })
    }

    fn open<R: Wait>(
        rt: &R,
        alloc: Global,
        blanks: List<Blank>,
        protos: &[Arc<Proto>],
        doors: usize,
        clocks: usize,
    ) -> Result<(Self, Given<Self::Passes, Self::Hand>), NoMemory> {
        let joint = match joint_for::<N, Self::Passes, Self::Hand>(
            alloc,
            &protos[0],
            protos.len(),
            doors,
            clocks,
        ) {
            Ok(joint) => joint,
            Err(NoMemory) => {
                drop(blanks);
                return Err(NoMemory);
            }
        };
        let mut behind = blanks;
        let blank = take_off(&mut behind);
        match blank.open::<N>(alloc) {
            Ok(first) => {
                open_behind::<R, N, X>(rt, alloc, first, behind, &protos[1..], joint, doors, clocks)
            }
            Err(NoMemory) => {
                drop(behind);
                drop(joint);
                Err(NoMemory)
            }
        }
    }
}
