//! The attribute text of a view, and the attributes that it shows.
#![tactic(auto)]

mod attribute;
mod attributes;
pub mod examples;
pub mod laws;
mod line;
mod name;
mod number;
mod text;

pub use attributes::{axis_attributes, offset_attributes, run_attributes};
pub use number::value_count;
pub use text::das_text_of;
