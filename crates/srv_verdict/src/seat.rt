//! A seat at a desk.

use fm_model::Tally;
use pub_snap::{Desk, Name, Pass, Share};
use std::sync::Mutex;

/// What is held before anything was published.
pub const NOTHING: Tally = Tally {
    files: 0,
    rows: 0,
    size: 0,
};

/// A desk under its lock, the pass that looks at its log, the share that counts what is published from here, and how
/// much was held after the last operation that was.
#[derive(Drop)]
pub struct Seat<'a, N: Name> {
    pub desk: &'a Mutex<Desk<N>>,
    pub pass: &'a mut Pass<N>,
    pub share: &'a mut Share<N>,
    pub held: Tally,
}
