//! What a session asks for.

use web_frame::Request;

/// The item that a reply is asked for.
#[derive(Clone, Copy)]
pub enum Asked {
    /// A request.
    Head(Request),
    /// Bytes that end as a head does and aren't one.
    BadHead,
    /// A head that doesn't end in its first 16,384 bytes.
    HeadTooLong,
}

/// Why a session ended.
#[derive(Clone, Copy)]
pub enum End {
    /// Input ended, and nothing or only empty lines were left.
    Closed,
    /// Input ended within a head, n bytes after the empty lines before it.
    Cut(u64),
    /// A reply was sent to a request that asked for the end.
    Asked,
    /// A reply was sent to bytes that aren't a head.
    BadHead,
    /// A reply was sent to a head that is too long.
    HeadTooLong,
    /// A reply was sent to a request with a body, which isn't read.
    BodyNotTaken,
    /// The session's last reply was sent.
    RequestLimit,
    /// The link failed.
    LinkFault,
    /// Memory ran out.
    NoMemory,
}

/// What the caller does next.
#[derive(Clone, Copy)]
pub enum Action {
    /// Read at most this many bytes.
    Read(usize),
    /// Make a reply.
    Ask(Asked),
    /// Send the reply's bytes, from the first that wasn't sent.
    Send { from: u64 },
    /// Close the link.
    Close(End),
}
