//! What is being done on a connection.

use dap_reply::Plan;

/// What is being done on a connection.
#[derive(Drop)]
pub enum Doing {
    /// Requests are read.
    Reading,
    /// A reply is sent, of which `sent` bytes have gone.
    Replying { plan: Plan, sent: u64 },
    /// Memory ran out. The text that says so is sent, of which `sent` bytes have gone.
    Leaving { sent: usize },
}
