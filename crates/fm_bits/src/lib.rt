//! Numbers as their bits: whole seconds of a time, and one exact text for each value.
#![tactic(auto)]

mod digits;
mod hexadecimal;
pub mod laws;
mod pattern;
mod quoted;
mod scale;
mod seconds;
mod text;
mod value;

pub use nc_model::Pattern;
pub use pattern::pattern_at;
pub use quoted::put_quoted;
pub use seconds::whole_seconds;
pub use text::text_of;
