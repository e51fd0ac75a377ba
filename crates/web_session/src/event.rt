//! What happens to a session.

/// What the caller tells a session: the answer to its last action.
#[derive(Clone, Copy)]
pub enum Event<'a> {
    /// The session's action is asked for, once more or for the first time. It changes nothing.
    Start,
    /// Bytes were read.
    Bytes(&'a [u8]),
    /// A reply of this many bytes was made.
    Answer { len: u64 },
    /// This many bytes of the reply were sent.
    Sent(u64),
    /// There is no more to read.
    EndOfInput,
    /// Memory for a reply ran out.
    NoAnswer,
    /// The link failed.
    Fault,
}
