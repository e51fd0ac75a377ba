//! The outcome of a run.

use fm_base::{Bytes, List};
use fm_model::Op;

/// The operations that were published, and for each session the bytes that it was sent and how many operations it has
/// seen.
#[derive(Drop)]
pub struct Outcome {
    pub log: List<Op>,
    pub outputs: List<Bytes>,
    pub seen: List<u64>,
}
