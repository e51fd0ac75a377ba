//! Locks, which keep two servers from one folder.

use crate::paths::path_inside;
use dev_std::{Event, Tell, tell_of, tell_unopened};
use dev_traits::Failed;
use fm_base::Fail;
use std::alloc::Global;
use std::fs::{File, TryLockError};
use std::{io, rt};

/// An open file or folder that one process at a time may lock.
pub trait Lockable {
    /// Locks it until it is closed. Returns whether no other one has.
    fn lock_now(&self) -> io::Result<bool>;
}

impl Lockable for File {
    fn lock_now(&self) -> io::Result<bool> {
        match self.try_lock() {
            Ok(()) => Ok(true),
            Err(TryLockError::WouldBlock) => Ok(false),
            Err(TryLockError::Error(error)) => Err(error),
        }
    }
}

/// Locks a folder, so that no other server takes in what comes to it, and keeps it open.
pub fn lock<R: rt::Files<File: Lockable>, T: Tell>(
    rt: &R,
    tell: &T,
    alloc: Global,
    folder: &str,
    locked: &mut Vec<R::File>,
) -> Result<(), Fail<Failed>> {
    let opened = match open_folder(rt, alloc, folder) {
        Ok(opened) => opened,
        Err(error) => return Err(tell_unopened(tell, folder, error)),
    };
    match lock_open(&opened, tell, folder) {
        Ok(()) => Ok(locked.push(opened)?),
        Err(Failed) => {
            drop(opened);
            Err(Fail::Fault(Failed))
        }
    }
}

// Locks a folder that is open. Where the system has no lock for it, that is said, and the folder is taken without one.
fn lock_open<F: Lockable, T: Tell>(opened: &F, tell: &T, folder: &str) -> Result<(), Failed> {
    match opened.lock_now() {
        Ok(true) => Ok(()),
        Ok(false) => {
            let event = Event::plain("failing", "the folder is in use");
            tell_of(tell, folder, event);
            Err(Failed)
        }
        Err(error) => {
            let event = Event::failing(b"", "it can't be locked", error);
            tell_of(tell, folder, event);
            Ok(())
        }
    }
}

// A folder that is open.
fn open_folder<R: rt::Files>(rt: &R, alloc: Global, folder: &str) -> io::Result<R::File> {
    let path = path_inside(alloc, folder, "")?;
    let opened = File::open(rt, path.as_str());
    drop(path);
    opened
}
