//! The whole work of a staff: all do their tasks, and then each learns the whole logs.
ghost use Rattle.std.specs.Prelude.{◌<◌, length, ℕ};
ghost use Rattle.std.specs.List.{AllZip, filter_map};
ghost use Rattle.fm_edition.specs.Log.{IsLog};
ghost use Rattle.srv_workers.specs.Does.{Does, shows};
ghost use Rattle.srv_workers.specs.Done.{HaveWorked};
ghost use Rattle.srv_workers.specs.Workers.{door_of};

use crate::course::learn_all;
use crate::desks::Desks;
use crate::work::work;
use crate::worker::Worker;
use dev_traits::{Clock, Door, Gate, Inbox};
use fm_base::List;
use std::alloc::Global;
use std::sync::Wait;
use std::thread::{Threads, for_each_mut};

// Has all workers do their tasks at once, each in a thread of its own where one can be started.
fn work_each<
    R: Threads + Wait + Sync,
    D: Door + Send,
    I: Inbox + Send,
    C: Clock + Send,
    G: Gate + Sync,
    X: Desks + Send,
>(
    rt: &R,
    alloc: Global,
    shared: &X::Shared,
    keep: u32,
    gate: &G,
    staff: &mut [Worker<D, I, C, X::Eyes, X::Hand>],
)
where
    D::L: Send,
    X::Eyes: Send,
    X::Hand: Send,
    X::Shared: Sync,
    X::Receipts: Send,
    X::Back: Send,
    ensures { AllZip (Does (shows D.shown D.L.shown I.shown C.shown) keep X.means) staff.old staff.new }
{
    let threads = staff.len().max(1);
    for_each_mut(
        rt,
        staff,
        threads,
        &|_: usize, worker: &mut Worker<D, I, C, X::Eyes, X::Hand>|
            ensures { Does (shows D.shown D.L.shown I.shown C.shown) keep X.means worker.old worker.new }
        { work::<R, D, I, C, G, X>(rt, alloc, shared, keep, gate, worker) },
    );
}

// Has all workers do their tasks, with the desks under their locks. Then each learns the whole logs. Gives the workers
// back with the desks.
pub(crate) fn work_and_learn<
    R: Threads + Wait + Sync,
    D: Door + Send,
    I: Inbox + Send,
    C: Clock + Send,
    G: Gate + Sync,
    X: Desks + Send,
>(
    rt: &R,
    alloc: Global,
    desks: X,
    keep: u32,
    gate: &G,
    staff: List<Worker<D, I, C, X::Eyes, X::Hand>>,
) -> (X, List<Worker<D, I, C, X::Eyes, X::Hand>>)
where
    D::L: Send,
    X::Eyes: Send,
    X::Hand: Send,
    X::Shared: Sync,
    X::Receipts: Send,
    X::Back: Send,
    ensures done { HaveWorked (shows D.shown D.L.shown I.shown C.shown) keep X.means (X.logs result.0) staff result.1 }
    ensures sound { 0 < length (filter_map door_of staff) → (number : ℕ) → number < X.means.them.count
        → IsLog (X.means.them.proto number) (X.logs result.0 number) }
{
    let mut staff = staff;
    let shared = desks.shared();
    let workers = staff.items.as_mut_slice();
    work_each::<R, D, I, C, G, X>(rt, alloc, &shared, keep, gate, workers);
    let desks = X::alone(shared);
    learn_all::<R, D, I, C, X>(rt, &desks, workers);
    (desks, staff)
}
