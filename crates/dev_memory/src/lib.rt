//! The outside in memory: each trait of `dev_traits` over plain values, whose calls can be made to fail.
#![tactic(auto)]

mod calls;
mod first;
mod lines;
mod mem_clock;
mod mem_dial;
mod mem_door;
mod mem_files;
mod mem_inbox;
mod mem_link;
mod mem_opener;
mod mem_sink;
mod paused_link;
mod pauses;
mod room;

pub use calls::Calls;
pub use mem_clock::MemClock;
pub use mem_dial::MemDial;
pub use mem_door::{DoorEvent, MemDoor};
pub use mem_files::{Entry, MemFiles, look_up};
pub use mem_inbox::MemInbox;
pub use mem_link::{Hold, MemLink};
pub use mem_opener::MemOpener;
pub use mem_sink::MemSink;
pub use paused_link::PausedLink;
pub use pauses::Pauses;
