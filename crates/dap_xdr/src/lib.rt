//! The data of DAP 2.0: the values of a part that is sent, as XDR, from any offset.
#![tactic(auto)]

mod array;
mod elements;
mod find;
mod fit;
mod len;
mod lending;
mod part;
mod piece;
mod rows;
mod slabs;
mod stored;
mod text;
mod texts;
mod widen;

pub use find::{array_in, array_of};
pub use fit::fits;
pub use len::{Marked, xdr_len, xdr_marks};
pub use lending::{lent, stretch};
pub use piece::{xdr_piece, xdr_piece_marked};
pub use text::{put_text, text_len};
