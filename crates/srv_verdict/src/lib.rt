//! The verdict on a change that is asked of a desk: a file comes, the file of a name goes, old runs go.
#![tactic(auto)]

mod attempt;
mod change;
mod changes;
mod deciding;
mod seat;

pub use change::Change;
pub use changes::{Expiring, Putting, Retracting};
pub use deciding::decide;
pub use seat::{NOTHING, Seat};
