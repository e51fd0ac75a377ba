//! The structure text of a dataset and its length; lines of fixed words.
#![tactic(auto)]

mod length;
mod line;
mod text;

pub use length::dds_len;
pub use line::{put_indent, put_line};
pub use text::{dds_begun, dds_of, dds_text, put_array_front, put_close, put_dim, put_dims};
