//! All workers of a run over desks that are open, up to their close.
ghost use Rattle.std.specs.Prelude.{◌≤◌, ◌<◌, ◌^◌, length};
ghost use Rattle.srv_workers.specs.Does.{shows};
ghost use Rattle.srv_workers.specs.Given.{IsBackFor, IsGiven};
ghost use Rattle.srv_workers.specs.Over.{RanOver};
ghost use Rattle.srv_workers.specs.Room.{device_count, IsRoomFor};

use crate::close::close_over;
use crate::desks::Desks;
use crate::given::Given;
use crate::outcome::Outcomes;
use crate::room::Room;
use crate::shift::work_and_learn;
use crate::staff::hire;
use dev_traits::{Machine, Opened};
use std::alloc::Global;
use std::sync::Wait;
use std::thread::Threads;

// Runs a worker for each device over desks that are open, and closes them. It takes no memory but what the workers ask
// for.
pub(crate) fn run_over<R: Threads + Wait + Sync, M: Machine, X: Desks + Send>(
    rt: &R,
    alloc: Global,
    desks: X,
    given: Given<X::Eyes, X::Hand>,
    room: Room<M::D, M::I, M::C, X::Eyes, X::Hand, X::Back>,
    keep: u32,
    gate: &M::G,
    devices: &mut Opened<M>,
) -> Outcomes
where
    X::Eyes: Send,
    X::Hand: Send,
    X::Shared: Sync,
    X::Receipts: Send,
    X::Back: Send,
    requires given { IsGiven X.means X.parts devices.old given }
    requires back { IsBackFor X.slots X.means.them.count X.parts room.parts.back }
    requires room { IsRoomFor devices.old X.means.them.count room.parts.back room }
    requires some { 1 ≤ length devices.old.doors }
    requires few { device_count devices.old < 2 ^ 32 }
    ensures { RanOver (shows M.D.shown M.D.L.shown M.I.shown M.C.shown) keep X.means given devices.old devices.new
        result }
{
    let Room {
        staff,
        parts,
        closed,
    } = room;
    let staff = hire::<M::D, M::I, M::C, X>(devices, given, staff);
    let (desks, staff) = work_and_learn::<R, M::D, M::I, M::C, M::G, X>(
        rt, alloc, desks, keep, gate, staff,
    );
    close_over::<R, M::D, M::I, M::C, X>(rt, desks, staff, parts, closed, devices)
}
