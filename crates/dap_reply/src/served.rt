//! What serving a link shows.

use web_session::End;

/// A reply that was begun: the number of the operations that left its collection, and how many of its bytes were
/// written.
#[derive(Clone, Copy)]
pub struct Mark {
    pub revision: u64,
    pub sent: u64,
}

/// Why serving a link stopped: as many replies were written as were asked for, or the link ended.
#[derive(Clone, Copy)]
pub enum Stop {
    Enough,
    Ended(End),
}
