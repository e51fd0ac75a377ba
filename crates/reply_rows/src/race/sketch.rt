//! What readers ask, and what the answers have to be.

use super::runs::{FIRST_RUN, SIX_HOURS};
use fm_base::NoMemory;
use fm_edition::Edition;
use pub_look::Query;
use std::alloc::Global;

/// What is held, as four decimal digits: the number of the best run at a valid time, from 1, and 0 for none; the number
/// of files; and whether the first run is there, and the first or the second. The answer takes no memory.
pub struct Sketch;

impl Query for Sketch {
    type Out = u64;

    ghost says = { λ _ _ _ _. Unit {0} };

    fn answer(&self, _alloc: Global, edition: &Edition, _revision: u64) -> Result<u64, NoMemory> {
        let best = match edition.best_run(FIRST_RUN, None) {
            Some(run) => run.abs_diff(FIRST_RUN) / 21_600 % 9 + 1,
            None => 0,
        };
        let files = u64::from(edition.tally().files);
        let first = u64::from(edition.older_than(FIRST_RUN + SIX_HOURS));
        let second = u64::from(edition.older_than(FIRST_RUN + 2 * SIX_HOURS));
        Ok(best % 10 * 1_000 + files % 10 * 100 + first * 10 + second)
    }
}

// The answers at the first sixteen revisions, worked out by hand. The second eight come again and again.
const ANSWERS: [u64; 16] = [
    0, 1_111, 2_211, 3_311, 3_201, 3_100, 4_200, 4_311, 4_200, 4_311, 4_411, 4_411, 4_301, 4_200,
    4_200, 4_311,
];

/// Whether this is the answer at a revision.
pub fn is_answer(revision: u64, answer: u64) -> bool {
    let number = if revision < 8 {
        revision
    } else {
        8 + revision % 8
    };
    ANSWERS.get(number as usize) == Some(&answer)
}
