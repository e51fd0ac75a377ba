//! What the workers at one desk have: eyes for each door, a hand for each other device.
ghost use Rattle.std.specs.Prelude.{◌≡◌, ◌+◌, ◌-◌, ◌<◌, ◌≤◌, ◌^◌, [], IfOk, length, replicate};
ghost use Rattle.pub_snap.specs.Opening.{unused};
ghost use Rattle.srv_workers.specs.Places.{HasPlaces, new_hand};

use crate::given::{Given, Vacant, vacant_for};
use crate::one::OwnHand;
use crate::own::{OwnPass, copies_of};
use crate::slots::{Slots, take_off};
use fm_base::{Arc, List, NoMemory};
use fm_model::Proto;
use pub_snap::{Name, Pass, Share};
use std::alloc::Global;

// Room for eyes and hands, and a prototype for each.
#[derive(Drop)]
pub(crate) struct Places<N: Name> {
    pub vacant: Vacant<OwnPass<N>, OwnHand<N>>,
    pub protos: List<Arc<Proto>>,
}

// Room for the workers of `doors` doors, `inboxes` inboxes and `clocks` clocks.
pub(crate) fn places_for<N: Name>(
    alloc: Global,
    proto: &Arc<Proto>,
    doors: usize,
    inboxes: usize,
    clocks: usize,
) -> Result<Places<N>, NoMemory>
    requires { doors + inboxes + clocks < 2 ^ 64 }
    ensures { IfOk result (HasPlaces proto.now doors inboxes clocks) }
{
    let protos = copies_of(alloc, proto, doors + inboxes + clocks)?;
    match vacant_for(alloc, doors, inboxes, clocks) {
        Ok(vacant) => Ok(Places { vacant, protos }),
        Err(NoMemory) => {
            drop(protos);
            Err(NoMemory)
        }
    }
}

// The first passes, each with a prototype.
fn eyes_of<N: Name>(
    passes: &mut List<Pass<N>>,
    protos: &mut List<Arc<Proto>>,
    count: usize,
    room: Slots<OwnPass<N>>,
) -> List<OwnPass<N>>
    requires passes { passes.old ≡ replicate (length passes.old) (unused N.proto) }
    requires protos { protos.old ≡ replicate (length passes.old) N.proto }
    requires count { count ≤ length passes.old }
    requires empty { room.items ≡ [] }
    requires free { count ≤ room.free }
    ensures eyes { result ≡ replicate count (unused N.proto) }
    ensures passes { passes.new ≡ replicate (length passes.old - count) (unused N.proto) }
    ensures protos { protos.new ≡ replicate (length passes.old - count) N.proto }
{
    let mut eyes = room;
    for _number in 0..count {
        let pass = take_off(passes);
        let proto = take_off(protos);
        eyes.put(OwnPass::of(pass, proto));
    }
    eyes.into_list()
}

// The first of the passes that are left, each with a prototype and a share.
fn hands_of<N: Name>(
    passes: &mut List<Pass<N>>,
    protos: &mut List<Arc<Proto>>,
    shares: &mut List<Share<N>>,
    count: usize,
    room: Slots<OwnHand<N>>,
) -> List<OwnHand<N>>
    requires passes { passes.old ≡ replicate (length shares.old) (unused N.proto) }
    requires protos { protos.old ≡ replicate (length shares.old) N.proto }
    requires shares { shares.old ≡ replicate (length shares.old) 0 }
    requires count { count ≤ length shares.old }
    requires empty { room.items ≡ [] }
    requires free { count ≤ room.free }
    ensures hands { result ≡ replicate count (new_hand N.proto) }
    ensures passes { passes.new ≡ replicate (length shares.old - count) (unused N.proto) }
    ensures protos { protos.new ≡ replicate (length shares.old - count) N.proto }
    ensures shares { shares.new ≡ replicate (length shares.old - count) 0 }
{
    let mut hands = room;
    for _number in 0..count {
        let pass = take_off(passes);
        let proto = take_off(protos);
        let share = take_off(shares);
        hands.put(OwnHand {
            own: OwnPass::of(pass, proto),
            share,
        });
    }
    hands.into_list()
}

// What the workers at a desk have. It takes no memory.
pub(crate) fn given_at<N: Name>(
    passes: List<Pass<N>>,
    shares: List<Share<N>>,
    places: Places<N>,
    doors: usize,
    inboxes: usize,
    clocks: usize,
) -> Given<OwnPass<N>, OwnHand<N>>
    requires passes { passes ≡ replicate (doors + (inboxes + clocks)) (unused N.proto) }
    requires shares { shares ≡ replicate (inboxes + clocks) 0 }
    requires places { HasPlaces N.proto doors inboxes clocks places }
    ensures eyes { result.eyes ≡ replicate doors (unused N.proto) }
    ensures at_inboxes { result.at_inboxes ≡ replicate inboxes (new_hand N.proto) }
    ensures at_clocks { result.at_clocks ≡ replicate clocks (new_hand N.proto) }
{
    let Places { vacant, protos } = places;
    let Vacant {
        eyes,
        at_inboxes,
        at_clocks,
    } = vacant;
    let mut passes = passes;
    let mut protos = protos;
    let mut shares = shares;
    let eyes = eyes_of(&mut passes, &mut protos, doors, eyes);
    let taken = hands_of(&mut passes, &mut protos, &mut shares, inboxes, at_inboxes);
    let gone = hands_of(&mut passes, &mut protos, &mut shares, clocks, at_clocks);
    Given {
        eyes,
        at_inboxes: taken,
        at_clocks: gone,
    }
}
