//! How much a collection holds, and when it is full.

/// The number of files, of times of all files, and of bytes of all files.
#[derive(Clone, Copy, Debug, PartialEq, Eq)]
pub struct Tally {
    pub files: u32,
    pub rows: u32,
    pub size: u64,
}

/// What there may be too many of.
#[derive(Clone, Copy, Debug)]
pub enum Which {
    Files,
    Rows,
    Size,
}

/// What a collection would hold too much of: how much it would hold, and the limit.
#[derive(Clone, Copy, Debug)]
pub struct Full {
    pub which: Which,
    pub held: u64,
    pub limit: u64,
}
