//! The log of a desk, and passes that look at a copy of what it leaves and wait for nobody.
#![tactic(auto)]

mod log;
mod name;
mod pass;
mod receipt;
mod rule;
mod shown;

pub use log::{Front, Page, open};
pub use name::Name;
pub use pass::Pass;
pub use receipt::Receipt;
pub use rule::{Known, Publication};
pub use shown::Shown;
