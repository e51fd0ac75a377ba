//! The files of the machine.
ghost use Rattle.std.specs.Prelude.{◌≡◌, ◌↔◌, None, IfOk, IfSome, IsOk};
ghost use Rattle.std.specs.IoError.{error_kind};
ghost use Rattle.dev_std.specs.Content.{IsFoundIn};
ghost use Rattle.dev_traits.specs.Files.{KeepsLimit};

use crate::content::read_to_end;
use dev_traits::{Failed, Files, Found, count_fault};
use fm_base::Fail;
use std::alloc::Global;
use std::fs::{File, OpenFile};
use std::io::{Error, ErrorKind, Read};
use std::{rt, str};

/// The files of the machine, by paths that are UTF-8 text.
#[derive(Drop)]
pub struct RealFiles<R: rt::Files + Drop> {
    rt: R,
    faults: u64,
}

impl<R: rt::Files + Drop> RealFiles<R> {
    /// The files that this runtime opens. No call has failed.
    pub fn new(rt: R) -> RealFiles<R>
        ensures { ⟦<RealFiles<R> as Files>⟧.shown result ≡ record { held = None; faults = 0 } }
    {
        RealFiles { rt, faults: 0 }
    }
}

impl<R: rt::Files + Drop> Files for RealFiles<R> {
    ghost shown = { λ files. record { held = None; faults = files.faults } };

    fn faults(&self) -> u64 {
        self.faults
    }

    fn read(&mut self, alloc: Global, path: &[u8], limit: u64) -> Result<Found, Fail<Failed>> {
        match read_file(&self.rt, alloc, path, limit) {
            Err(Fail::Fault(_)) => Err(Fail::Fault(count_fault(&mut self.faults))),
            found => found,
        }
    }
}

/// The file at a path. A folder is a fault, and a path that isn't text too.
pub fn read_file<R: rt::Files>(
    rt: &R,
    alloc: Global,
    path: &[u8],
    limit: u64,
) -> Result<Found, Fail<Failed>>
    ensures { IfOk result (KeepsLimit limit) }
{
    let Ok(path) = str::from_utf8(path) else {
        return Err(Fail::Fault(Failed));
    };
    match File::open(rt, path) {
        Ok(file) => read_open(alloc, file, limit),
        Err(error) => match unopened(&error) {
            Ok(found) => Ok(found),
            Err(failed) => Err(Fail::Fault(failed)),
        },
    }
}

// The outcome for a file that can't be opened: absent where the system finds none, else a fault.
fn unopened(error: &Error) -> Result<Found, Failed>
    ensures absent { IfOk result (λ found. found ≡ Found.Absent) }
    ensures kind { IsOk result ↔ (error_kind error.now ≡ ErrorKind.NotFound) }
    ensures limit { (limit : _) → IfOk result (KeepsLimit limit) }
{
    if error.kind() == ErrorKind::NotFound {
        Ok(Found::Absent)
    } else {
        Err(Failed)
    }
}

/// The file that is open, where its length, as the system says it, keeps the limit. A folder is a fault.
pub fn read_open<F: Read + OpenFile + Drop>(
    alloc: Global,
    file: F,
    limit: u64,
) -> Result<Found, Fail<Failed>>
    ensures limit { IfOk result (KeepsLimit limit) }
    ensures content { IfSome (F.remaining file) (λ bytes. IfOk result (IsFoundIn bytes)) }
{
    let Ok(metadata) = file.metadata() else {
        return Err(Fail::Fault(Failed));
    };
    if metadata.is_dir() {
        return Err(Fail::Fault(Failed));
    }
    if metadata.len() > limit {
        return Ok(Found::TooLong(metadata.len()));
    }
    read_to_end(alloc, file, metadata.len(), limit)
}
