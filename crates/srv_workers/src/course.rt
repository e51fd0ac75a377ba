//! The end of the work: each worker learns the whole logs.
ghost use Rattle.std.specs.Prelude.{◌<◌, IsTrue, All, length, ℕ};
ghost use Rattle.std.specs.List.{AllZip, filter_map};
ghost use Rattle.fm_edition.specs.Log.{IsLog};
ghost use Rattle.srv_workers.specs.Course.{Begins, HasLearnt, HasSeen, Keeps};
ghost use Rattle.srv_workers.specs.Workers.{door_of};

use crate::desks::Desks;
use crate::worker::Worker;
use std::sync::Wait;

// Has a worker learn the logs of the desks that it looks at, and says whether it has then seen just those.
fn learn<D, I, C, X: Desks>(
    worker: &mut Worker<D, I, C, X::Eyes, X::Hand>,
    all: &X::Receipts,
) -> bool
    ensures learns { HasLearnt X.means (X.told all.now) worker.old worker.new }
    ensures seen { IsTrue result → HasSeen X.means (X.told all.now) worker.new }
{
    match worker {
        Worker::Serve { eyes, .. } => X::learn_all(eyes, all),
        Worker::TakeIn { hand, .. } => X::learn(hand, all),
        Worker::LetGo { hand, .. } => X::learn(hand, all),
    }
}

// Has each worker learn them.
fn learn_each<D, I, C, X: Desks>(
    staff: &mut [Worker<D, I, C, X::Eyes, X::Hand>],
    all: &X::Receipts,
) -> bool
    ensures learn { AllZip (HasLearnt X.means (X.told all.now)) staff.old staff.new }
    ensures seen { IsTrue result → All (HasSeen X.means (X.told all.now)) staff.new }
{
    let mut level = true;
    for i in 0..staff.len() {
        if !learn::<D, I, C, X>(&mut staff[i], all) {
            level = false;
        }
    }
    level
}

// Has each worker learn the logs as they now are.
fn learn_once<D, I, C, X: Desks>(desks: &X, staff: &mut [Worker<D, I, C, X::Eyes, X::Hand>]) -> bool
    ensures learn { AllZip (HasLearnt X.means (X.logs desks.now)) staff.old staff.new }
    ensures seen { IsTrue result → All (HasSeen X.means (X.logs desks.now)) staff.new }
{
    let all = desks.receipts();
    learn_each::<D, I, C, X>(staff, &all)
}

// Has each worker learn the whole logs. All operations that a worker had seen before begin them.
pub(crate) fn learn_all<R: Wait, D, I, C, X: Desks>(
    rt: &R,
    desks: &X,
    staff: &mut [Worker<D, I, C, X::Eyes, X::Hand>],
)
    ensures begin { All (Begins X.means (X.logs desks.now)) staff.old }
    ensures keep { AllZip (Keeps X.means) staff.old staff.new }

    // A door's worker looks at all desks.
    ensures sound { 0 < length (filter_map door_of staff.old) → (number : ℕ) → number < X.means.them.count
        → IsLog (X.means.them.proto number) (X.logs desks.now number) }
{
    for _ in rt.forever() {
        if learn_once::<D, I, C, X>(desks, staff) {
            return;
        }
    }
    unreachable!()
}
