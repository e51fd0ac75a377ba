//! All workers of a run over one desk, from its opening to its close.
ghost use Rattle.std.specs.Prelude.{◌≡◌, ◌≤◌, ◌+◌, ◌<◌, ◌^◌, [], IfOk, OnErr, length, replicate};
ghost use Rattle.fm_model.specs.Site.{IsPrototype};
ghost use Rattle.pub_snap.specs.Opening.{IsNamed, unused};
ghost use Rattle.srv_workers.specs.One.{IsOfOne};
ghost use Rattle.srv_workers.specs.Places.{HasPlaces};
ghost use Rattle.srv_workers.specs.Room.{device_count, IsRoomFor};
ghost use Rattle.srv_workers.specs.Runs.{RanTogether};

use crate::one::OwnHand;
use crate::outcome::{Outcome, Outcomes};
use crate::own::OwnPass;
use crate::places::{Places, given_at, places_for};
use crate::room::{Room, room_of};
use crate::run::run_over;
use crate::slots::Slots;
use dev_traits::{Devices, Machine, Opened};
use fm_base::{Arc, List, NoMemory};
use fm_model::Proto;
use pub_snap::{Blank, Desk, Name, Pass, Share, prepare};
use std::alloc::Global;
use std::marker::Brand;
use std::sync::Wait;
use std::thread::Threads;

// All that is made before the desk is opened.
#[derive(Drop)]
struct Ready<D, I, C, N: Name> {
    places: Places<N>,
    room: Room<D, I, C, OwnPass<N>, OwnHand<N>, Slots<Share<N>>>,
}

fn ready_for<D: Drop, I: Drop, C: Drop, N: Name>(
    alloc: Global,
    proto: &Arc<Proto>,
    devices: &Devices<D, I, C>,
) -> Result<Ready<D, I, C, N>, NoMemory>
    requires { device_count devices.now < 2 ^ 32 }
    ensures places { IfOk result (λ ready. HasPlaces proto.now (length devices.now.doors)
        (length devices.now.inboxes) (length devices.now.clocks) ready.places) }
    ensures room { IfOk result (λ ready. IsRoomFor devices.now 1 ready.room.parts.back ready.room) }
    ensures back { IfOk result (λ ready. (ready.room.parts.back.items ≡ [])
        × (length devices.now.inboxes + length devices.now.clocks ≤ ready.room.parts.back.free)) }
{
    let inboxes = devices.inboxes.len();
    let clocks = devices.clocks.len();
    let back = Slots::with_room(alloc, inboxes + clocks)?;
    let room = room_of(alloc, devices, 1, back)?;
    match places_for(alloc, proto, devices.doors.len(), inboxes, clocks) {
        Ok(places) => Ok(Ready { places, room }),
        Err(NoMemory) => {
            drop(room);
            Err(NoMemory)
        }
    }
}

// A desk that was opened, its passes and its shares.
type OpenDesk<N> = (Desk<N>, List<Pass<N>>, List<Share<N>>);

// The outcome over one desk.
fn of_one(outcomes: Outcomes) -> Outcome
    requires { length outcomes.desks ≡ 1 }
    ensures { IsOfOne outcomes result }
{
    let Outcomes {
        doors,
        inboxes,
        clocks,
        desks,
    } = outcomes;
    let closed = desks.items[0];
    Outcome {
        doors,
        inboxes,
        clocks,
        tally: closed.tally,
        revision: closed.revision,
    }
}

// Runs workers over a desk that was opened, with its passes and shares, and closes it. It takes no memory but what the
// workers ask for.
fn run_opened<R: Threads + Wait + Sync, M: Machine, N: Name + Send + Sync>(
    rt: &R,
    alloc: Global,
    opened: OpenDesk<N>,
    ready: Ready<M::D, M::I, M::C, N>,
    keep: u32,
    gate: &M::G,
    devices: &mut Opened<M>,
) -> Outcome
    requires passes { opened.1 ≡ replicate (length devices.old.doors
        + (length devices.old.inboxes + length devices.old.clocks)) (unused N.proto) }
    requires shares { opened.2 ≡ replicate (length devices.old.inboxes + length devices.old.clocks) 0 }
    requires parts { N.parts ≡ length devices.old.inboxes + length devices.old.clocks }
    requires places { HasPlaces N.proto (length devices.old.doors) (length devices.old.inboxes)
        (length devices.old.clocks) ready.places }
    requires room { IsRoomFor devices.old 1 ready.room.parts.back ready.room }
    requires back { (ready.room.parts.back.items ≡ []) × (N.parts ≤ ready.room.parts.back.free) }
    requires some { 1 ≤ length devices.old.doors }
    requires few { device_count devices.old < 2 ^ 32 }
    ensures { RanTogether M.D.shown M.D.L.shown M.I.shown M.C.shown N.proto keep devices.old devices.new result }
{
    let (desk, passes, shares) = opened;
    let Ready { places, room } = ready;
    let doors = devices.doors.len();
    let inboxes = devices.inboxes.len();
    let given = given_at(passes, shares, places, doors, inboxes, devices.clocks.len());
    let outcomes = run_over::<R, M, Desk<N>>(rt, alloc, desk, given, room, keep, gate, devices);
    of_one(outcomes)
}

// Runs workers over a desk that is opened under a name, and closes it. Once it is open this takes no memory but what
// the workers ask for.
fn run_one<R: Threads + Wait + Sync, M: Machine, N: Name + Send + Sync>(
    rt: &R,
    alloc: Global,
    blank: Blank,
    proto: &Arc<Proto>,
    keep: u32,
    gate: &M::G,
    devices: &mut Opened<M>,
) -> Result<Outcome, NoMemory>
    requires named { IsNamed blank N.book N.name N.proto N.parts }
    requires proto { blank.proto ≡ proto.now }
    requires passes { blank.passes
        ≡ length devices.old.doors + (length devices.old.inboxes + length devices.old.clocks) }
    requires shares { blank.shares ≡ length devices.old.inboxes + length devices.old.clocks }
    requires some { 1 ≤ length devices.old.doors }
    requires few { device_count devices.old < 2 ^ 32 }
    ensures ran { IfOk result
        (RanTogether M.D.shown M.D.L.shown M.I.shown M.C.shown proto.now keep devices.old devices.new) }
    ensures none { OnErr result (devices.new ≡ devices.old) }
{
    let ready = match ready_for::<M::D, M::I, M::C, N>(alloc, proto, devices) {
        Ok(ready) => ready,
        Err(NoMemory) => {
            drop(blank);
            return Err(NoMemory);
        }
    };
    match blank.open::<N>(alloc) {
        Ok(opened) => Ok(run_opened::<R, M, N>(rt, alloc, opened, ready, keep, gate, devices)),
        Err(NoMemory) => {
            drop(ready);
            Err(NoMemory)
        }
    }
}

/// Opens a desk over a prototype, and has a worker for each device, all at once: each door is served, what arrives in
/// each inbox is taken in, and at each moment of a clock the runs go that are more than `keep` seconds old. It waits
/// for all workers. Then each learns the whole log, the desk is closed, and the devices are given back. Where memory
/// runs out before the desk is open, no worker runs, and the devices are as they were.
pub fn run_workers<R: Threads + Wait + Sync, M: Machine>(
    rt: &R,
    alloc: Global,
    proto: &Arc<Proto>,
    keep: u32,
    gate: &M::G,
    devices: &mut Opened<M>,
) -> Result<Outcome, NoMemory>
    requires proto { IsPrototype proto.now }
    requires doors { (1 ≤ length devices.old.doors) × (length devices.old.doors ≤ 16) }
    requires inboxes { (1 ≤ length devices.old.inboxes) × (length devices.old.inboxes ≤ 8) }
    requires clocks { length devices.old.clocks ≤ 1 }
    ensures ran { IfOk result
        (RanTogether M.D.shown M.D.L.shown M.I.shown M.C.shown proto.now keep devices.old devices.new) }
    ensures none { OnErr result (devices.new ≡ devices.old) }
{
    let shares = devices.inboxes.len() + devices.clocks.len();
    let passes = devices.doors.len() + shares;
    let shared = proto.share()?;
    let blank = prepare(alloc, shared, passes as u32, shares as u32)?;
    run_one::<R, M, Brand>(rt, alloc, blank, proto, keep, gate, devices)
}
