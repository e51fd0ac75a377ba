//! Calls that failed.
ghost use Rattle.std.specs.Prelude.{◌≡◌, ◌↔◌};
ghost use Rattle.std.specs.IoError.{error_kind};
ghost use Rattle.fm_base.specs.declared.fail.Fail.TheVariants as fails;
ghost use Rattle.dev_traits.specs.Cause.{HasReadCause};

use crate::event::{Event, tell_of};
use crate::line::Tell;
use dev_traits::{Failed, count_fault};
use fm_base::Fail;
use std::io::{Error, ErrorKind};

/// Why a call of the system failed: memory ran out, or the device failed.
pub fn fail_of(error: &Error) -> Fail<Failed>
    ensures { (result ≡ fails.NoMemory) ↔ (error_kind error.now ≡ ErrorKind.OutOfMemory) }
{
    if error.kind() == ErrorKind::OutOfMemory {
        Fail::NoMemory
    } else {
        Fail::Fault(Failed)
    }
}

/// Tells why a folder or an address can't be opened, and returns why the call failed.
pub fn tell_unopened<T: Tell>(tell: &T, place: &str, error: Error) -> Fail<Failed> {
    tell_of(
        tell,
        place,
        Event::failing(b"", "it can't be opened", error),
    );
    fail_of(&error)
}

/// Counts a call that failed, and returns what it did. Where memory ran out nothing is counted.
pub fn counted_fault<T>(faults: &mut u64, done: Result<T, Fail<Failed>>) -> Result<T, Fail<Failed>>
    ensures same { result ≡ done }
    ensures cause { HasReadCause faults.old faults.new result }
{
    match done {
        Err(Fail::Fault(_failed)) => Err(Fail::Fault(count_fault(faults))),
        done => done,
    }
}
