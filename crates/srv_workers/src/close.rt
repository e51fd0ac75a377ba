//! The end of a run: the workers are taken apart, the devices are given back, and the desks are closed.
ghost use Rattle.std.specs.Prelude.{◌≡◌, ◌<◌, ◌≤◌, [], length, map, sum, ℕ};
ghost use Rattle.srv_workers.specs.Close.{Closes};
ghost use Rattle.srv_workers.specs.Desks.{closed_of, first_of};
ghost use Rattle.srv_workers.specs.Parts.{HasRoom, IsEmpty, TakesShares};
ghost use Rattle.srv_workers.specs.Workers.{counted_by};

use crate::desks::Desks;
use crate::outcome::Outcomes;
use crate::parts::{Parts, take_apart};
use crate::slots::Slots;
use crate::worker::Worker;
use dev_traits::Devices;
use fm_base::List;
use pub_snap::Closed;
use std::mem::replace;
use std::sync::Wait;

// Gives the devices back and closes the desks.
fn close_with<R: Wait, D: Drop, I: Drop, C: Drop, X: Desks>(
    rt: &R,
    desks: X,
    parts: Parts<D, I, C, X::Back>,
    closed: Slots<Closed>,
    devices: &mut Devices<D, I, C>,
) -> Outcomes
    requires all { (number : ℕ) → number < X.means.them.count
        → length (X.slots parts.back number).items ≡ X.parts number }
    requires closed { (closed.items ≡ []) × (X.means.them.count ≤ closed.free) }
    ensures doors { (devices.new.doors ≡ parts.doors.items) × (result.doors ≡ parts.doors_told.items) }
    ensures inboxes { (devices.new.inboxes ≡ parts.inboxes.items) × (result.inboxes ≡ parts.inboxes_told.items) }
    ensures clocks { (devices.new.clocks ≡ parts.clocks.items) × (result.clocks ≡ parts.clocks_told.items) }
    ensures desks { result.desks ≡ map closed_of (first_of X.means.them.count (X.logs desks)) }
    ensures counted { (number : ℕ) → number < X.means.them.count
        → sum (X.slots parts.back number).items ≡ length (X.logs desks number) }
{
    let Parts {
        doors,
        inboxes,
        clocks,
        back,
        doors_told,
        inboxes_told,
        clocks_told,
    } = parts;
    let mut closed = closed;
    desks.close(rt, back, &mut closed);
    let given_back = Devices {
        doors: doors.into_list(),
        inboxes: inboxes.into_list(),
        clocks: clocks.into_list(),
    };
    drop(replace(devices, given_back));
    Outcomes {
        doors: doors_told.into_list(),
        inboxes: inboxes_told.into_list(),
        clocks: clocks_told.into_list(),
        desks: closed.into_list(),
    }
}

// Takes all workers apart, gives their devices back, and closes the desks. It takes no memory.
pub(crate) fn close_over<R: Wait, D: Drop, I: Drop, C: Drop, X: Desks>(
    rt: &R,
    desks: X,
    staff: List<Worker<D, I, C, X::Eyes, X::Hand>>,
    parts: Parts<D, I, C, X::Back>,
    closed: Slots<Closed>,
    devices: &mut Devices<D, I, C>,
) -> Outcomes
    requires room { HasRoom staff parts }
    requires free { TakesShares X.means X.slots staff parts.back }
    requires empty { IsEmpty parts }
    requires none { (number : ℕ) → number < X.means.them.count → (X.slots parts.back number).items ≡ [] }
    requires shares { (number : ℕ) → number < X.means.them.count
        → length (counted_by X.means number staff) ≡ X.parts number }
    requires closed { (closed.items ≡ []) × (X.means.them.count ≤ closed.free) }
    ensures { Closes X.means (X.logs desks) staff devices.new result }
{
    let mut parts = parts;
    take_apart::<D, I, C, X>(staff, &mut parts);
    close_with::<R, D, I, C, X>(rt, desks, parts, closed, devices)
}
