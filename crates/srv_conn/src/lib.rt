//! A connection that is served: the requests of a link are answered from looks at a collection, until the link ends, or
//! as far as they come without waiting.
#![tactic(auto)]

mod answer;
mod connection;
mod glance;
pub mod laws;
mod looks;
mod reading;
mod replying;
mod revisions;
mod serve;
mod stepping;
mod trail;

pub use connection::Connection;
pub use glance::glance_at_all;
pub use looks::{Looks, MOST_COLLECTIONS};
pub use revisions::Revisions;
pub use serve::{ROOM, serve_link, serve_looks};
pub use stepping::go_on;
pub use trail::Trail;
