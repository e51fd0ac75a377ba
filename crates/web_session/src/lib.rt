//! One connection of HTTP/1 as a machine over events: it says when to read, which request to answer, what to send and
//! when to close (RFC 9112, section 9). It knows nothing of links, of memory or of what is served.
#![tactic(auto)]

mod action;
mod event;
pub mod laws;
mod packed;
mod phase;
mod session;

pub use action::{Action, Asked, End};
pub use event::Event;
pub use packed::PackedSession;
pub use phase::MAX_REPLIES;
pub use session::Session;
pub use web_frame::{MAX_HEAD, Method, Request};
