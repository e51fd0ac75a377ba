//! The publisher over threads.
#![tactic(auto)]

mod blank;
mod desk;
pub mod laws;
mod share;
mod swap;

pub use blank::{Blank, prepare};
pub use desk::{Closed, Desk};
pub use pub_pass::{Name, Pass, Receipt};
pub use share::Share;
