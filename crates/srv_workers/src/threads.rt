//! Whether threads can be started.

use std::sync::{Mutex, MutexGuard, Wait};
use std::thread::{Threads, scope, scope_env};

// Waits until a lock is let go.
fn wait_for<R: Wait>(rt: &R, lock: &Mutex<()>) {
    MutexGuard::unlock(lock.lock(rt));
}

/// Whether `count` threads can be started beside that of the caller, all at once. Each ends before the call returns.
/// Nothing is claimed of it, since a limit may change at any time.
pub fn can_start<R: Threads + Wait + Sync>(rt: &R, count: usize) -> bool {
    let lock = Mutex::new(());
    let shared = &lock;
    scope(scope_env(), rt, |threads| {
        let guard = shared.lock(rt);
        let mut all = true;
        for _ in 0..count {
            if threads.spawn(move || wait_for(rt, shared)).is_err() {
                all = false;
                break;
            }
        }
        MutexGuard::unlock(guard);
        all
    })
}
