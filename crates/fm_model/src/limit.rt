//! How much a collection and a file may hold.

/// The most files.
pub const MAX_FILES: u32 = 4_096;

/// The most times of all files.
pub const MAX_ROWS: u32 = 262_144;

/// The most bytes of all files.
pub const MAX_BYTES: u64 = 3_221_225_472;

/// The most times of one file.
pub const MAX_TIMES: u32 = 4_096;

/// The greatest distance of an instant from the collection's epoch, in seconds.
pub const MAX_INSTANT: i64 = 1_073_741_823;

/// The most bytes of one file.
pub const MAX_FILE_BYTES: u64 = 536_870_912;

/// The most bytes of a collection's name.
pub const MAX_NAME: u32 = 64;
