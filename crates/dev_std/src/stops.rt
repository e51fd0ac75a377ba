//! The folders of a server in which `STOP` lies.

use std::alloc::{AllocError, Global};
use std::sync::Arc;
use std::sync::atomic::{AtomicU64, Ordering};

// How many folders there are, in how many of them nothing is left and `STOP` lies, and whether that held of all once.
#[derive(Drop)]
struct Counts {
    folders: AtomicU64,
    stopped: AtomicU64,
    over: AtomicU64,
}

/// The folders of a server in which nothing is left and `STOP` lies. Taking in is over once that holds of all of them
/// at once, and goes on before that, also where a `STOP` is taken away.
#[derive(Drop)]
pub struct Stops {
    counts: Arc<Counts>,
}

impl Stops {
    /// Of no folder yet.
    pub fn new(alloc: Global) -> Result<Stops, AllocError> {
        let counts = Counts {
            folders: AtomicU64::new(0),
            stopped: AtomicU64::new(0),
            over: AtomicU64::new(0),
        };
        let counts = Arc::new(alloc, counts)?;
        Ok(Stops { counts })
    }

    /// The same once more.
    pub fn share(&self) -> Result<Stops, AllocError> {
        let counts = Arc::try_clone(&self.counts)?;
        Ok(Stops { counts })
    }

    /// There is one folder more.
    pub fn add(&self) {
        self.counts.folders.fetch_add(1, Ordering::SeqCst);
    }

    /// One folder more has stopped.
    pub fn stop(&self) {
        let stopped = self.counts.stopped.fetch_add(1, Ordering::SeqCst);
        if stopped.saturating_add(1) >= self.counts.folders.load(Ordering::SeqCst) {
            self.counts.over.store(1, Ordering::SeqCst);
        }
    }

    /// A folder that had stopped goes on.
    pub fn go_on(&self) {
        self.counts.stopped.fetch_sub(1, Ordering::SeqCst);
    }

    /// Whether all had stopped at once.
    pub fn is_over(&self) -> bool {
        self.counts.over.load(Ordering::SeqCst) != 0
    }
}
