//! All workers of a run over several desks, from their opening to their close.
ghost use Rattle.std.specs.Prelude.{◌≡◌, ◌≤◌, ◌+◌, ◌<◌, ◌^◌, [], IfOk, OnErr, length, replicate};
ghost use Rattle.srv_workers.specs.Desks.{first_of};
ghost use Rattle.srv_workers.specs.Given.{IsBackFor};
ghost use Rattle.srv_workers.specs.Opened.{HasOneEach};
ghost use Rattle.srv_workers.specs.Room.{device_count, IsRoomFor};
ghost use Rattle.srv_workers.specs.Several.{RanAmong};

use crate::behind::Behind;
use crate::desks::Desks;
use crate::eyes::{EyeRoom, eye_room, given_with};
use crate::outcome::Outcomes;
use crate::room::{Room, room_of};
use crate::run::run_over;
use dev_traits::{Devices, Machine, Opened};
use fm_base::{Arc, List, NoMemory};
use fm_model::Proto;
use pub_snap::Blank;
use std::alloc::Global;
use std::sync::Wait;
use std::thread::Threads;

// Room for all workers of a run over desks.
type WorkRoom<D, I, C, X> = Room<
    D,
    I,
    C,
    <X as Desks>::Eyes,
    <X as Desks>::Hand,
    <X as Desks>::Back,
>;

// All room that is made before the desks are opened.
#[derive(Drop)]
struct Made<E, O> {
    eyes: EyeRoom<E>,
    room: O,
}

// Room for all workers, and for the shares of an inbox and of `clocks` clocks of each desk.
fn room_over<D: Drop, I: Drop, C: Drop, X: Behind>(
    alloc: Global,
    desks: usize,
    clocks: usize,
    devices: &Devices<D, I, C>,
) -> Result<WorkRoom<D, I, C, X>, NoMemory>
    requires few { device_count devices.now < 2 ^ 32 }
    requires clocks { clocks ≤ 1 }
    ensures room { IfOk result (λ room. IsRoomFor devices.now desks room.parts.back room) }
    ensures back { IfOk result (λ room.
        IsBackFor X.slots X.means.them.count (λ _. 1 + clocks) room.parts.back) }
{
    let back = X::back(alloc, 1 + clocks)?;
    let room = room_of(alloc, devices, desks, back)?;
    Ok(room)
}

// All room that is made before desks over these prototypes are opened.
fn made_for<D: Drop, I: Drop, C: Drop, X: Behind>(
    alloc: Global,
    protos: &[Arc<Proto>],
    clocks: usize,
    devices: &Devices<D, I, C>,
) -> Result<Made<X::Eyes, WorkRoom<D, I, C, X>>, NoMemory>
    requires few { device_count devices.now < 2 ^ 32 }
    requires clocks { clocks ≤ 1 }
    ensures copies { IfOk result (λ made. made.eyes.copies ≡ replicate (length devices.now.doors) protos.now) }
    ensures slots { IfOk result (λ made.
        (made.eyes.slots.items ≡ []) × (length devices.now.doors ≤ made.eyes.slots.free)) }
    ensures room { IfOk result (λ made.
        IsRoomFor devices.now (length protos.now) made.room.parts.back made.room) }
    ensures back { IfOk result (λ made.
        IsBackFor X.slots X.means.them.count (λ _. 1 + clocks) made.room.parts.back) }
{
    let eyes = eye_room(alloc, protos, devices.doors.len())?;
    match room_over::<D, I, C, X>(alloc, protos.len(), clocks, devices) {
        Ok(room) => Ok(Made { eyes, room }),
        Err(NoMemory) => {
            drop(eyes);
            Err(NoMemory)
        }
    }
}

// Opens desks from blanks, runs a worker for each device over all of them, and closes them. Once they are open this
// takes no memory but what the workers ask for.
pub(crate) fn run_desks<R: Threads + Wait + Sync, M: Machine, X: Behind + Send>(
    rt: &R,
    alloc: Global,
    blanks: List<Blank>,
    protos: &[Arc<Proto>],
    clocks: usize,
    keep: u32,
    gate: &M::G,
    devices: &mut Opened<M>,
) -> Result<Outcomes, NoMemory>
where
    X::Eyes: Send,
    X::Hand: Send,
    X::Shared: Sync,
    X::Receipts: Send,
    X::Back: Send,
    requires blanks { X.are_blank (length devices.old.doors) clocks blanks }
    requires protos { protos.now ≡ first_of X.means.them.count X.means.them.proto }
    requires devices { HasOneEach X.means.them.count clocks devices.old }
    requires few { X.means.them.count ≤ 8 }
    ensures ran { IfOk result (RanAmong M.D.shown M.D.L.shown M.I.shown M.C.shown X.means.them keep
        devices.old devices.new) }
    ensures none { OnErr result (devices.new ≡ devices.old) }
{
    let made = match made_for::<M::D, M::I, M::C, X>(alloc, protos, clocks, devices) {
        Ok(made) => made,
        Err(NoMemory) => {
            drop(blanks);
            return Err(NoMemory);
        }
    };
    let doors = devices.doors.len();
    let (desks, given) = match X::open(rt, alloc, blanks, protos, doors, clocks) {
        Ok(opened) => opened,
        Err(NoMemory) => {
            drop(made);
            return Err(NoMemory);
        }
    };
    let Made { eyes, room } = made;
    let given = given_with::<X>(given, eyes);
    let outcomes = run_over::<R, M, X>(rt, alloc, desks, given, room, keep, gate, devices);
    Ok(outcomes)
}
