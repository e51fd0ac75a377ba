//! Files that are read whole.
ghost use Rattle.std.specs.Prelude.{◌≡◌, IfSome, IfOk};
ghost use Rattle.dev_traits.specs.Cause.{HasReadCause};
ghost use Rattle.dev_traits.specs.Files.{found_of, KeepsLimit};
ghost use Rattle.dev_traits.specs.Shown.{FilesShown};

use crate::faults::Failed;
use fm_base::{Bytes, Fail};
use std::alloc::Global;

/// What a read found at a path.
#[derive(Drop)]
pub enum Found {
    /// All the bytes of the file.
    Content(Bytes),
    /// No file lies there.
    Absent,
    /// The length of a file that is longer than the limit, in bytes.
    TooLong(u64),
}

/// Files that are read by their paths.
pub trait Files {
    /// The content at each path, where it is known, and how many calls have failed.
    ghost shown: { Self → FilesShown };

    /// How many calls have failed. The count stands still at its greatest number.
    fn faults(&self) -> u64
        ensures { result ≡ (shown self.now).faults };

    /// The file at a path, where it has at most `limit` bytes.
    fn read(&mut self, alloc: Global, path: &[u8], limit: u64) -> Result<Found, Fail<Failed>>
        ensures found { IfSome (shown self.old).held (λ held.
            IfOk result (λ found. found ≡ found_of limit (held path.now))) }

        // Also where no content is known.
        ensures limit { IfOk result (KeepsLimit limit) }
        ensures same { (shown self.new).held ≡ (shown self.old).held }
        ensures cause { HasReadCause (shown self.old).faults (shown self.new).faults result };
}
