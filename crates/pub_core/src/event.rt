//! What happens: an operation is published, or something happens to a session.

use fm_base::Bytes;
use fm_model::Op;

/// An event. The first number of each but `Publish` is that of a session, from 0.
#[derive(Drop)]
pub enum Event {
    /// An operation is published.
    Publish(Op),
    /// The collection is looked at for the session's next request.
    Look(u32),
    /// The session learns the number of operations that were published.
    Learn(u32, u64),
    /// The session is fed bytes.
    Bytes(u32, Bytes),
    /// This many more bytes of the session's present reply are sent.
    Sent(u32, u64),
    /// The session's input ends.
    End(u32),
    /// The session's link fails.
    Fault(u32),
}
