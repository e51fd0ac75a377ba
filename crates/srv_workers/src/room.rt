//! All room that a run needs, made before its desks are opened.
ghost use Rattle.std.specs.Prelude.{◌+◌, ◌<◌, ◌^◌, IfOk, length};
ghost use Rattle.srv_workers.specs.Room.{IsRoomFor};

use crate::parts::{Parts, room_for};
use crate::slots::{Slots, pair_with_room};
use crate::worker::Worker;
use dev_traits::Devices;
use fm_base::NoMemory;
use pub_snap::Closed;
use std::alloc::Global;

// Room for the workers of a run, for their parts, and for the ends of the desks.
#[derive(Drop)]
pub(crate) struct Room<D, I, C, E, H, B> {
    pub staff: Slots<Worker<D, I, C, E, H>>,
    pub parts: Parts<D, I, C, B>,
    pub closed: Slots<Closed>,
}

// Room for these devices, and for the ends of some desks to which shares are given back so.
pub(crate) fn room_of<D: Drop, I: Drop, C: Drop, E: Drop, H: Drop, B: Drop>(
    alloc: Global,
    devices: &Devices<D, I, C>,
    desks: usize,
    back: B,
) -> Result<Room<D, I, C, E, H, B>, NoMemory>
    requires { length devices.now.doors + length devices.now.inboxes + length devices.now.clocks < 2 ^ 32 }
    ensures { IfOk result (IsRoomFor devices.now desks back) }
{
    let doors = devices.doors.len();
    let inboxes = devices.inboxes.len();
    let clocks = devices.clocks.len();
    let parts = room_for(alloc, doors, inboxes, clocks, back)?;
    match pair_with_room(alloc, doors + inboxes + clocks, desks) {
        Ok(lists) => Ok(Room {
            staff: lists.first,
            parts,
            closed: lists.second,
        }),
        Err(NoMemory) => {
            drop(parts);
            Err(NoMemory)
        }
    }
}
