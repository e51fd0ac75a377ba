//! The bytes of a reply: some that stand ready, and the data of a dataset behind them, from any offset.
#![tactic(auto)]

mod data;
mod laid;
mod parts;

pub use laid::{Laid, Layout, TextMarks, lay_out};
pub use parts::Plan;
