//! The steps of the race.

use super::runs::{FIRST_RUN, SIX_HOURS};

/// How many operations are published.
pub const STEPS: u64 = 20_000;

/// One of eight steps, which come again and again: an expiry below a run, a retraction, or a put of the file of this
/// number. Each of them changes the collection.
#[derive(Clone, Copy)]
pub enum Step {
    Put(u64),
    Expire(i64),
    Retract,
}

pub fn step_at(number: u64) -> Step {
    match number % 8 {
        0 | 6 => Step::Put(0),
        1 => Step::Put(1),
        2 => Step::Put(2),
        3 => Step::Expire(FIRST_RUN + SIX_HOURS),
        4 => Step::Retract,
        5 => Step::Put(3),
        _ => Step::Expire(FIRST_RUN + 2 * SIX_HOURS),
    }
}
