//! Where a session stands.

use crate::action::{Asked, End};

/// The most replies of a session.
pub const MAX_REPLIES: u32 = 10_000;

// Where a session stands.
#[derive(Clone, Copy)]
pub(crate) enum Phase {
    // No head is whole.
    Waiting,
    // A reply is asked for.
    Asking(Asked),
    // A reply of `len` bytes is sent as far as `from`.
    Sending { asked: Asked, from: u64, len: u64 },
    // The link ends.
    Ended(End),
}
