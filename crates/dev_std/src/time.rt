//! The present moment.

use std::rt;

/// The present moment, in milliseconds of the machine's clock. Where that can't be read all time is over.
pub fn present<C: rt::Clock>(clock: &C) -> u64 {
    match clock.monotonic() {
        Ok(now) => u64::try_from(now.as_millis()).unwrap_or(u64::MAX),
        Err(_) => u64::MAX,
    }
}
