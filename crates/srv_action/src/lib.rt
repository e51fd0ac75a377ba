//! One action of a connection, which is one call of its link at most: bytes are taken, or the next bytes of a reply are
//! sent.
#![tactic(auto)]

mod acting;
mod delivery;
mod doing;
mod farewell;
mod reading;

pub use acting::{Acted, act};
pub use delivery::PIECE;
pub use doing::Doing;
pub use farewell::leave;
pub use reading::read;
