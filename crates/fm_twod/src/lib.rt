//! The two-dimensional view of a collection: each run against each offset at once (THREDDS Data Server, Forecast Model
//! Run Collections).
#![tactic(auto)]

mod asked;
mod cells;
mod count;
mod data;
mod declare;
mod fill;
mod grid;
mod items;
pub mod laws;
mod lay;
mod len;
mod lookup;
mod offsets;
mod piece;
mod row;
mod seconds;
mod section;
mod twod;
mod values;

pub use asked::TwodAsk;
pub use twod::Twod;
