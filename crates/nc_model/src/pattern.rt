//! One number as its bits, and what the bits stand for.

use crate::kind::Kind;

/// The bits of one number. A call that takes a pattern asks that the kind isn't `Char` and that the bits fit its size.
#[derive(Clone, Copy)]
pub struct Pattern {
    pub kind: Kind,
    pub bits: u64,
}

/// What a pattern stands for.
#[derive(Clone, Copy)]
pub enum Value {
    /// `odd * 2^exponent`, with a minus sign where it is `negative`. `odd` is odd, or it is 0 and so is `exponent`. A
    /// zero of a floating-point kind keeps its sign.
    Finite {
        negative: bool,
        odd: u64,
        exponent: i32,
    },
    Infinite {
        negative: bool,
    },
    /// A NaN, of any sign and payload.
    NotANumber,
}
