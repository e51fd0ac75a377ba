//! Numbers, counts and zero bytes as XDR (RFC 4506), from any offset.
#![tactic(auto)]

mod count;
mod kind;
mod writing;

pub use count::{count_bytes, count_twice, put_zeros};
pub use kind::{element_len, number_len, put_element, put_number, widened};
pub use writing::put;
