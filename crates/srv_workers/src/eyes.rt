//! Eyes that look at several desks.
ghost use Rattle.std.specs.Prelude.{◌≡◌, ◌≤◌, [], All, IfOk, length, replicate};
ghost use Rattle.srv_many.specs.Several.{views_in};
ghost use Rattle.srv_workers.specs.Both.{rowed_with};
ghost use Rattle.srv_workers.specs.Desks.{first_of, IsUnseen};

use crate::behind::Behind;
use crate::given::Given;
use crate::own::OwnPass;
use crate::slots::{Slots, take_off};
use fm_base::{Arc, List, NoMemory};
use fm_model::Proto;
use pub_snap::Name;
use srv_many::{Row, Several};
use std::alloc::Global;
use std::marker::Model;

// A pass of each desk in a row, and their prototypes in the same order. Contracts see it as the row.
#[derive(Drop)]
pub(crate) struct AllEyes<N: Name, F: Row> {
    pub passes: Several<OwnPass<N>, F>,
    pub protos: List<Arc<Proto>>,
}

impl<N: Name, F: Row> Model for AllEyes<N, F> {
    ghost use Rattle.std.specs.Prelude.{◌≡◌, ◌≤◌, length};
    ghost use Rattle.srv_many.specs.Several.{Rowed};
    ghost use Rattle.srv_workers.specs.Both.{rowed_with};

    ghost Value = { Rowed };

    ghost view = { λ eyes. rowed_with N.proto F.known eyes.passes };

    ghost invariant = { λ eyes. (eyes.protos ≡ (rowed_with N.proto F.known eyes.passes).protos)
        × (length eyes.protos ≤ 8) };
}

impl<N: Name, F: Row> AllEyes<N, F> {
    pub fn of(passes: Several<OwnPass<N>, F>, protos: List<Arc<Proto>>) -> AllEyes<N, F>
        requires protos { protos ≡ (rowed_with N.proto F.known passes).protos }
        requires few { length protos ≤ 8 }
        ensures { result ≡ rowed_with N.proto F.known passes }
    {
        AllEyes { passes, protos }
    }
}

// Room for eyes, and a copy of the prototypes for each of them.
#[derive(Drop)]
pub(crate) struct EyeRoom<E> {
    pub copies: List<List<Arc<Proto>>>,
    pub slots: Slots<E>,
}

// A copy of the prototypes.
fn copy_of(alloc: Global, protos: &[Arc<Proto>]) -> Result<List<Arc<Proto>>, NoMemory>
    ensures { IfOk result (λ copy. copy ≡ protos.now) }
{
    let mut copy = List::new(alloc);
    for proto in protos {
        copy.push(proto.share()?)?;
    }
    Ok(copy)
}

// A copy of them for each door.
fn copies_for(
    alloc: Global,
    protos: &[Arc<Proto>],
    doors: usize,
) -> Result<List<List<Arc<Proto>>>, NoMemory>
    ensures { IfOk result (λ copies. copies ≡ replicate doors protos.now) }
{
    let mut copies = List::new(alloc);
    for _made in 0..doors {
        copies.push(copy_of(alloc, protos)?)?;
    }
    Ok(copies)
}

// Room for the eyes of each door.
pub(crate) fn eye_room<E: Drop>(
    alloc: Global,
    protos: &[Arc<Proto>],
    doors: usize,
) -> Result<EyeRoom<E>, NoMemory>
    ensures copies { IfOk result (λ room. room.copies ≡ replicate doors protos.now) }
    ensures slots { IfOk result (λ room. (room.slots.items ≡ []) × (doors ≤ room.slots.free)) }
{
    let slots = Slots::with_room(alloc, doors)?;
    match copies_for(alloc, protos, doors) {
        Ok(copies) => Ok(EyeRoom { copies, slots }),
        Err(NoMemory) => {
            drop(slots);
            Err(NoMemory)
        }
    }
}

// Eyes of a row of passes for each door. It takes no memory.
fn eyes_with<X: Behind>(
    passes: List<X::Passes>,
    copies: List<List<Arc<Proto>>>,
    room: Slots<X::Eyes>,
) -> List<X::Eyes>
    requires copies { copies ≡ replicate (length passes) (first_of X.means.them.count X.means.them.proto) }
    requires few { X.means.them.count ≤ 8 }
    requires unseen { All (λ those. IsUnseen (views_in (X.Passes.known those))) passes }
    requires room { (room.items ≡ []) × (length passes ≤ room.free) }
    ensures each { length result ≡ length passes }
    ensures unseen { All (λ those. IsUnseen (X.means.views those)) result }
{
    let mut eyes = room;
    let mut passes = passes;
    let mut copies = copies;
    let count = passes.len();
    for _number in 0..count {
        let row = take_off(&mut passes);
        let protos = take_off(&mut copies);
        let those = X::eyes(row, protos);
        eyes.put(those);
    }
    eyes.into_list()
}

// What workers are given, with eyes for each row of passes. It takes no memory.
pub(crate) fn given_with<X: Behind>(
    given: Given<X::Passes, X::Hand>,
    room: EyeRoom<X::Eyes>,
) -> Given<X::Eyes, X::Hand>
    requires copies { room.copies
        ≡ replicate (length given.eyes) (first_of X.means.them.count X.means.them.proto) }
    requires few { X.means.them.count ≤ 8 }
    requires unseen { All (λ those. IsUnseen (views_in (X.Passes.known those))) given.eyes }
    requires room { (room.slots.items ≡ []) × (length given.eyes ≤ room.slots.free) }
    ensures each { length result.eyes ≡ length given.eyes }
    ensures unseen { All (λ those. IsUnseen (X.means.views those)) result.eyes }
    ensures at_inboxes { result.at_inboxes ≡ given.at_inboxes }
    ensures at_clocks { result.at_clocks ≡ given.at_clocks }
{
    let Given {
        eyes,
        at_inboxes,
        at_clocks,
    } = given;
    let eyes = eyes_with::<X>(eyes, room.copies, room.slots);
    Given {
        eyes,
        at_inboxes,
        at_clocks,
    }
}
