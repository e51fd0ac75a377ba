//! Reads what is left of a reader.
ghost use Rattle.std.specs.Prelude.{◌≡◌, ◌≤◌, IfOk, IfSome, take};
ghost use Rattle.dev_std.specs.Content.{IsAllOf};
ghost use Rattle.dev_traits.specs.Files.{KeepsLimit};

use dev_traits::{Failed, Found};
use fm_base::{Fail, List, NoMemory};
use std::alloc::Global;
use std::io::{ErrorKind, Read};

// What bytes are found to be of which at most `most` were read: all that there were, or too many.
#[tactic(auto, using(crate::proofs::ContentLemmas::contents))]
fn found_in(items: Vec<u8>, limit: u64, most: u64) -> Result<Found, Fail<Failed>>
    requires { limit ≤ most }
    ensures limit { IfOk result (KeepsLimit limit) }
    ensures content { (bytes : _) → items.items ≡ take most bytes → IfOk result (IsAllOf bytes limit) }
{
    let read = items.len() as u64;
    if read > limit {
        return Ok(Found::TooLong(read));
    }
    // The greatest limit has no byte after it. No memory holds such a file.
    if read == most {
        return Err(Fail::NoMemory);
    }
    Ok(Found::Content(List { items }))
}

/// All that a reader has left, where it is at most `limit` bytes. They are read in place, into room for `len` bytes,
/// which grows where there are more. A reader that fails is a fault, and never an end; a read that a signal
/// interrupts is made again. Of a reader without end at most `limit` bytes and one are read. The reader is taken, since
/// nothing is known of what it has left where it fails.
pub fn read_to_end<R: Read + Drop>(
    alloc: Global,
    reader: R,
    len: u64,
    limit: u64,
) -> Result<Found, Fail<Failed>>
    ensures limit { IfOk result (KeepsLimit limit) }
    ensures content { IfSome (R.remaining reader) (λ bytes. IfOk result (IsAllOf bytes limit)) }
{
    let room = (len as usize).saturating_add(1);
    let mut items = Vec::with_capacity(alloc, room)?;
    let most = limit.saturating_add(1);
    if let Err(error) = reader.take(most).read_to_end(&mut items) {
        return Err(if error.kind() == ErrorKind::OutOfMemory {
            Fail::NoMemory
        } else {
            Fail::Fault(Failed)
        });
    }
    found_in(items, limit, most)
}
