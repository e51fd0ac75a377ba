//! The outside as traits: files that are read, links to a peer, dialers that give them, sinks for reports, and what a
//! server is given beside them: doors through which links come, inboxes in which files arrive, clocks, gates, and what
//! opens them.
#![tactic(auto)]

mod clock;
mod dial;
mod door;
mod faults;
mod files;
mod gate;
mod inbox;
mod link;
mod machine;
mod sink;
mod whole;
mod world;

pub use clock::{Clock, Expiry};
pub use dial::Dial;
pub use door::{Coming, Door, DoorAsked};
pub use faults::{Failed, count_fault};
pub use files::{Files, Found};
pub use gate::{Gate, OpenGate, Place};
pub use inbox::{Arrival, Inbox, Verdict};
pub use link::{Link, Sent, Taken};
pub use machine::Machine;
pub use sink::Sink;
pub use whole::put_all;
pub use world::{Devices, Opened, World};
