//! Workers taken apart: the devices and the shares are given back, and the report of each is kept.
ghost use Rattle.std.specs.Prelude.{◌≡◌, ◌≤◌, ◌∷◌, [], IfOk};
ghost use Rattle.srv_workers.specs.Parts.{HasRoom, IsEmpty, PutsParts, TakesShares};

use crate::desks::Desks;
use crate::slots::{Slots, pair_with_room, pairs_with_room, take_off};
use crate::worker::Worker;
use fm_base::{List, NoMemory};
use srv_door::DoorReport;
use srv_ingest::{ExpireReport, IngestReport};
use std::alloc::Global;

// The devices and the reports of workers, each in the order of the workers, and the shares that were given back.
#[derive(Drop)]
pub(crate) struct Parts<D, I, C, B> {
    pub doors: Slots<D>,
    pub inboxes: Slots<I>,
    pub clocks: Slots<C>,
    pub back: B,
    pub doors_told: Slots<DoorReport>,
    pub inboxes_told: Slots<IngestReport>,
    pub clocks_told: Slots<ExpireReport>,
}

// No parts yet, and room for those of the given numbers of doors, inboxes and clocks.
pub(crate) fn room_for<D: Drop, I: Drop, C: Drop, B: Drop>(
    alloc: Global,
    doors: usize,
    inboxes: usize,
    clocks: usize,
    back: B,
) -> Result<Parts<D, I, C, B>, NoMemory>
    ensures empty { IfOk result IsEmpty }
    ensures back { IfOk result (λ parts. parts.back ≡ back) }
    ensures doors { IfOk result (λ parts. (doors ≤ parts.doors.free) × (doors ≤ parts.doors_told.free)) }
    ensures inboxes { IfOk result (λ parts. (inboxes ≤ parts.inboxes.free) × (inboxes ≤ parts.inboxes_told.free)) }
    ensures clocks { IfOk result (λ parts. (clocks ≤ parts.clocks.free) × (clocks ≤ parts.clocks_told.free)) }
{
    let doors = match pair_with_room(alloc, doors, doors) {
        Ok(doors) => doors,
        Err(NoMemory) => {
            drop(back);
            return Err(NoMemory);
        }
    };
    match pairs_with_room(alloc, inboxes, clocks) {
        Ok((inboxes, clocks)) => Ok(Parts {
            doors: doors.first,
            inboxes: inboxes.first,
            clocks: clocks.first,
            back,
            doors_told: doors.second,
            inboxes_told: inboxes.second,
            clocks_told: clocks.second,
        }),
        Err(NoMemory) => {
            drop(back);
            drop(doors);
            Err(NoMemory)
        }
    }
}

// Puts the parts of a worker behind those of others. It takes no memory.
fn put<D: Drop, I: Drop, C: Drop, X: Desks>(
    parts: &mut Parts<D, I, C, X::Back>,
    worker: Worker<D, I, C, X::Eyes, X::Hand>,
)
    requires room { HasRoom (worker ∷ []) parts.old }
    requires shares { TakesShares X.means X.slots (worker ∷ []) parts.old.back }
    ensures { PutsParts X.means X.slots (worker ∷ []) parts.old parts.new }
{
    match worker {
        Worker::Serve { door, report, .. } => {
            parts.doors.put(door);
            parts.doors_told.put(report);
        }
        Worker::TakeIn {
            inbox,
            hand,
            report,
        } => {
            parts.inboxes.put(inbox);
            X::give(&mut parts.back, hand);
            parts.inboxes_told.put(report);
        }
        Worker::LetGo {
            clock,
            hand,
            report,
        } => {
            parts.clocks.put(clock);
            X::give(&mut parts.back, hand);
            parts.clocks_told.put(report);
        }
    }
}

// Takes workers apart, and puts their parts behind those of others. It takes no memory.
pub(crate) fn take_apart<D: Drop, I: Drop, C: Drop, X: Desks>(
    staff: List<Worker<D, I, C, X::Eyes, X::Hand>>,
    parts: &mut Parts<D, I, C, X::Back>,
)
    requires room { HasRoom staff parts.old }
    requires shares { TakesShares X.means X.slots staff parts.old.back }
    ensures { PutsParts X.means X.slots staff parts.old parts.new }
{
    let mut staff = staff;
    let count = staff.len();
    for _number in 0..count {
        let worker = take_off(&mut staff);
        put::<D, I, C, X>(parts, worker);
    }
}
