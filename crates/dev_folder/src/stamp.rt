//! Which file lies at a path.
ghost use Rattle.std.specs.Prelude.{◌≡◌};
ghost use Rattle.dev_folder.specs.Stamps.{is_later};

use std::fs::{self, Metadata};
use std::io::{Error, ErrorKind};
use std::os::unix::fs::MetadataExt;
use std::rt;

/// Which file lies under a name: its number, and when its content, its modes or its name changed last, in seconds from
/// 1970 and nanoseconds.
#[derive(Clone, Copy, PartialEq, Eq)]
pub struct Stamp {
    pub number: u64,
    pub seconds: i64,
    pub nanos: i64,
}

impl Stamp {
    // Of the file that the system describes so.
    pub(crate) fn of(metadata: &Metadata) -> Stamp {
        Stamp {
            number: metadata.ino(),
            seconds: metadata.ctime(),
            nanos: metadata.ctime_nsec(),
        }
    }

    /// Whether it changed later than another.
    pub fn is_after(self, other: Stamp) -> bool
        ensures { result ≡ is_later self other }
    {
        other.seconds < self.seconds || (self.seconds == other.seconds && other.nanos < self.nanos)
    }
}

// What lies at a path, where links are followed.
#[derive(Clone, Copy)]
pub(crate) enum Lies {
    File(Stamp),
    // no file
    Other,
    // It can't be told.
    Unknown(Error),
}

// Looks at a path.
pub(crate) fn look_at<R: rt::Files>(rt: &R, path: &str) -> Lies {
    match fs::metadata(rt, path) {
        Ok(metadata) if metadata.is_file() => Lies::File(Stamp::of(&metadata)),
        Ok(_) => Lies::Other,
        Err(error) if error.kind() == ErrorKind::NotFound => Lies::Other,
        Err(error) => Lies::Unknown(error),
    }
}
