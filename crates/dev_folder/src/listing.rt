//! The names that lie in a folder.

use crate::moving::{Mover, open_inside};
use crate::names::{is_mistaken, is_offered};
use std::alloc::{AllocError, Global};
use std::io::{self, Read};
use std::{rt, str};

// The names in a folder that are offered if files lie there, and those that look as if they should be.
#[derive(Drop)]
pub(crate) struct Names {
    pub offered: Vec<String>,
    pub mistaken: Vec<Vec<u8>>,
}

impl Names {
    fn new(alloc: Global) -> Names {
        Names {
            offered: Vec::new(alloc),
            mistaken: Vec::new(alloc),
        }
    }

    // Puts a name with its own kind. One that is no text isn't offered.
    fn put(&mut self, alloc: Global, name: &[u8]) -> Result<(), AllocError> {
        match str::from_utf8(name) {
            Ok(text) if is_offered(name) => {
                put_copy(&mut self.offered, String::from_str(alloc, text))
            }
            Ok(_) if !is_mistaken(name) => Ok(()),
            _ => put_copy(&mut self.mistaken, Vec::from_slice(alloc, name)),
        }
    }

    // Puts names that each end in a NUL.
    fn put_all(&mut self, alloc: Global, names: &[u8]) -> Result<(), AllocError> {
        for name in names.split(|byte| *byte == 0) {
            self.put(alloc, name)?;
        }
        Ok(())
    }

    // Puts the names in a folder that is open, which are read as the system gives them.
    fn put_folder<D: Read>(&mut self, alloc: Global, folder: &mut D) -> io::Result<()> {
        let mut room = [0u8; 4_096];
        for _ in 0..u64::MAX {
            let count = folder.read(&mut room)?;
            if count == 0 {
                break;
            }
            self.put_all(alloc, &room[..count])?;
        }
        Ok(())
    }
}

// Puts the copy of a name, where there was memory for it.
fn put_copy<T: Drop>(names: &mut Vec<T>, copy: Result<T, AllocError>) -> Result<(), AllocError> {
    Ok(names.push(copy?)?)
}

/// How many names a folder that is open has, its own and that of the folder around it among them.
pub fn count_names<D: Read>(folder: &mut D) -> io::Result<u64> {
    let mut room = [0u8; 4_096];
    let mut names: u64 = 0;
    for _ in 0..u64::MAX {
        let count = folder.read(&mut room)?;
        if count == 0 {
            break;
        }
        names = names.saturating_add(ends_in(&room[..count]));
    }
    Ok(names)
}

// How many names end in a part of a listing, each in a NUL.
fn ends_in(names: &[u8]) -> u64 {
    let mut ends: u64 = 0;
    for byte in names {
        ends = ends.saturating_add(u64::from(*byte == 0));
    }
    ends
}

// The names in a folder that is open.
fn names_in<D: Read>(alloc: Global, folder: &mut D) -> io::Result<Names> {
    let mut names = Names::new(alloc);
    match names.put_folder(alloc, folder) {
        Ok(()) => Ok(names),
        Err(error) => {
            drop(names);
            Err(error)
        }
    }
}

// The names in the folder of an inbox, or in one inside it.
pub(crate) fn names_inside<R: rt::Files + Drop>(
    mover: &Mover<R>,
    alloc: Global,
    inner: &str,
) -> io::Result<Names> {
    let mut folder = open_inside(&mover.rt, alloc, mover.folder.as_str(), inner)?;
    names_in(alloc, &mut folder)
}
