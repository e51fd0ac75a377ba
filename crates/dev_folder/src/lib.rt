//! The folders of the machine as inboxes.
#![tactic(auto)]

mod arriving;
mod held_back;
mod inbox;
mod later;
mod listing;
mod locking;
mod moving;
mod names;
mod offers;
mod paths;
mod reading;
mod stamp;
mod stop;
mod troubles;

pub use held_back::Reason;
pub use inbox::FolderInbox;
pub use listing::count_names;
pub use locking::{Lockable, lock};
pub use names::{Shelf, is_mistaken, is_offered, shelf_of};
pub use stamp::Stamp;
