//! What opens the machine's doors, inboxes and clock, and the world of a process.
#![tactic(auto)]

mod bound;
mod clock;
mod collections;
mod descriptors;
mod host;
mod moment;
mod notice;
mod opener;
mod telling;
mod world;

pub use clock::RealClock;
pub use collections::{Collections, Prefix};
pub use descriptors::{connections_left, most_descriptors};
pub use dev_folder::{
    FolderInbox, Lockable, Reason, Shelf, Stamp, is_mistaken, is_offered, shelf_of,
};
pub use dev_net::{
    Accepting, DROPPED_AT_MOST, DialledLink, Ending, Entry, LINGER, Listener, Pace, Patience,
    PolledLink, Remaining, Sending, Share, Socket, TcpDial, TcpDoor, TcpLink, Watched, Wheel,
    accepting_of, second_after, second_of,
};
pub use dev_std::{Stops, Tell, Trouble};
pub use moment::{Jump, Moment};
pub use notice::tell_with_room;
pub use opener::RealOpener;
pub use telling::Teller;
pub use world::{HostOpener, HostWorld, host_world};
