//! Several collections at one link: each request is answered from the one whose root its path is below.
#![tactic(auto)]

mod choice;
mod row;
mod serving;
mod several;

pub use choice::choose;
pub use row::Row;
pub use serving::{serve_many, serve_many_door};
pub use several::Several;
