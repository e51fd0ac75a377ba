//! The heads of HTTP/1 requests (RFC 9112), taken out of a stream of bytes that may be cut anywhere.
#![tactic(auto)]

mod blank;
mod field;
mod frame;
mod head;
pub mod laws;
mod limit;
mod packed;
mod request;
mod scan;
mod store;
mod unread;
mod word;

pub use frame::{Frame, Next};
pub use limit::{MAX_FIELDS, MAX_HEAD};
pub use packed::PackedFrame;
pub use request::{Method, Request};
