//! The work of one worker.
ghost use Rattle.srv_workers.specs.Does.{Does, shows};

use crate::desks::Desks;
use crate::worker::Worker;
use dev_traits::{Clock, Door, Gate, Inbox};
use std::alloc::Global;
use std::sync::Wait;

// Does a worker's task.
pub(crate) fn work<R: Wait, D: Door, I: Inbox, C: Clock, G: Gate, X: Desks>(
    rt: &R,
    alloc: Global,
    shared: &X::Shared,
    keep: u32,
    gate: &G,
    worker: &mut Worker<D, I, C, X::Eyes, X::Hand>,
)
    ensures { Does (shows D.shown D.L.shown I.shown C.shown) keep X.means worker.old worker.new }
{
    match worker {
        Worker::Serve {
            door,
            number,
            eyes,
            report,
        } => {
            *report = X::serve(rt, alloc, eyes, door, *number, gate);
        }
        Worker::TakeIn {
            inbox,
            hand,
            report,
        } => {
            *report = X::take_in(rt, alloc, shared, hand, inbox);
        }
        Worker::LetGo {
            clock,
            hand,
            report,
        } => {
            *report = X::let_go(rt, alloc, shared, hand, clock, keep);
        }
    }
}
