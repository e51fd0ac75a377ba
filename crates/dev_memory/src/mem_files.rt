//! Files in memory.
ghost use Rattle.std.specs.Prelude.{◌≡◌, Some, IfOk};
ghost use Rattle.std.specs.Option.{option_copied};
ghost use Rattle.dev_traits.specs.Files.{found_of};
ghost use Rattle.dev_memory.specs.Memory.{held};

use crate::calls::Calls;
use dev_traits::{Failed, Files, Found};
use fm_base::{Bytes, Fail, List, NoMemory};
use std::alloc::Global;

/// A file in memory.
#[derive(Drop)]
pub struct Entry {
    pub path: Bytes,
    pub content: Bytes,
}

/// Files in memory. Where a path is repeated, its first entry counts.
#[derive(Drop)]
pub struct MemFiles {
    entries: List<Entry>,
    calls: Calls,
}

impl MemFiles {
    ghost use Rattle.dev_memory.specs.Memory.{files_failing};

    /// These files. The calls with these numbers, counted from 1, fail.
    pub fn new(entries: List<Entry>, failing: List<u64>) -> MemFiles
        ensures shown { ⟦<MemFiles as Files>⟧.shown result
            ≡ record { held = Some (held entries); faults = 0 } }
        ensures failing { files_failing result ≡ failing }
    {
        MemFiles {
            entries,
            calls: Calls::new(failing),
        }
    }
}

impl Files for MemFiles {
    ghost shown = { λ files. record { held = Some (held files.entries); faults = files.calls.faults } };

    fn faults(&self) -> u64 {
        self.calls.faults
    }

    fn read(&mut self, alloc: Global, path: &[u8], limit: u64) -> Result<Found, Fail<Failed>> {
        if self.calls.due() {
            return Err(Fail::Fault(self.calls.fail()));
        }
        Ok(look_up(alloc, self.entries.as_slice(), path, limit)?)
    }
}

/// What a read with a limit finds at the path. Where a path is repeated, its first entry counts.
pub fn look_up(alloc: Global, entries: &[Entry], path: &[u8], limit: u64) -> Result<Found, NoMemory>
    ensures { IfOk result (λ found. found ≡ found_of limit (held entries.now path.now)) }
{
    let Some(content) = content_at(entries, path) else {
        return Ok(Found::Absent);
    };
    let len = content.len() as u64;
    if len > limit {
        return Ok(Found::TooLong(len));
    }
    Ok(Found::Content(List::copy_of(alloc, content)?))
}

// The content of the first entry with the path.
fn content_at<'a>(entries: &'a [Entry], path: &[u8]) -> Option<&'a [u8]>
    ensures { option_copied result ≡ held entries.now path.now }
{
    for entry in entries {
        if entry.path.as_slice() == path {
            return Some(entry.content.as_slice());
        }
    }
    None
}
