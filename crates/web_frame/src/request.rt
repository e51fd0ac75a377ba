//! What the head of a request says.

/// A method that is served, or another.
#[derive(Clone, Copy, PartialEq, Eq)]
pub enum Method {
    Get,
    Head,
    Other,
}

/// What a head says that a server of plain replies needs to know.
#[derive(Clone, Copy, PartialEq, Eq)]
pub struct Request {
    pub method: Method,
    /// Whether the connection ends after the reply: the head says `close`, or is of HTTP/1.0 and doesn't say
    /// `keep-alive`.
    pub close: bool,
    /// Whether a body follows the head.
    pub has_body: bool,
}
