//! The connections of the machine: its sockets as doors and links that don't wait, and as dialled links.
#![tactic(auto)]

mod accepting;
mod closing;
mod dial;
mod door;
mod endings;
mod entry;
mod link;
mod patience;
mod reactor;
mod remaining;
mod share;
mod socket;
mod voice;
mod watching;
mod wheel;

pub use accepting::{Accepting, accepting_of};
pub use closing::{DROPPED_AT_MOST, Ending, LINGER};
pub use dial::{DialledLink, TcpDial};
pub use door::TcpDoor;
pub use entry::Entry;
pub use link::{PolledLink, TcpLink};
pub use patience::{Pace, Patience, Sending};
pub use remaining::Remaining;
pub use share::Share;
pub use socket::{Listener, Socket};
pub use voice::Voice;
pub use watching::{Watched, is_writable};
pub use wheel::{Wheel, second_after, second_of};
