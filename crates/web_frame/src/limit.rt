//! How much a head may be.

/// The most bytes of a head, with the empty lines before it and the one that ends it.
pub const MAX_HEAD: usize = 16_384;

/// The most header lines of a head.
pub const MAX_FIELDS: usize = 64;
