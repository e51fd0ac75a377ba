//! Files for which there was no room or no memory, which are brought back after a while.

use crate::listing::names_inside;
use crate::moving::Mover;
use crate::names::{Shelf, taken_back};
use crate::stamp::Stamp;
use std::alloc::{AllocError, Global};
use std::io::{self, ErrorKind};
use std::{fs, rt};

// The name that takes back the file of a name.
fn retraction_of(alloc: Global, name: &str) -> Result<String, AllocError> {
    let mut back = String::from_str(alloc, name)?;
    back.push_str(".retract")?;
    Ok(back)
}

impl<R: rt::Files + Drop> Mover<R> {
    // When a file was moved that lies in the folder, or in one inside it, where one does.
    fn moved_at(&mut self, place: Option<Shelf>, name: &str) -> io::Result<Option<Stamp>> {
        self.moves.set(self.folder.as_str(), place, name, None)?;
        match fs::symlink_metadata(&self.rt, self.moves.from.as_str()) {
            Ok(metadata) => Ok(Some(Stamp::of(&metadata))),
            Err(error) if error.kind() == ErrorKind::NotFound => Ok(None),
            Err(error) => Err(error),
        }
    }

    // Whether a file lies in a folder inside the folder that wasn't moved there before another one was moved.
    fn is_there_since(&mut self, shelf: Shelf, name: &str, other: Stamp) -> io::Result<bool> {
        match self.moved_at(Some(shelf), name)? {
            Some(stamp) => Ok(!other.is_after(stamp)),
            None => Ok(false),
        }
    }

    // Whether a name was published, or the name that takes it back got a verdict, after a file that waits in `later`.
    fn has_later_verdict(&mut self, name: &str, back: &str, waits: Stamp) -> io::Result<bool> {
        if self.is_there_since(Shelf::Done, name, waits)?
            || self.is_there_since(Shelf::Done, back, waits)?
        {
            return Ok(true);
        }
        self.is_there_since(Shelf::Refused, back, waits)
    }

    // Whether the file of a name was published or taken back after a file that waits in `later`.
    fn is_outdated(&mut self, alloc: Global, name: &str, waits: Stamp) -> io::Result<bool> {
        let back = retraction_of(alloc, name)?;
        let is_outdated = self.has_later_verdict(name, back.as_str(), waits);
        drop(back);
        is_outdated
    }

    // Brings a file back that waits in `later` since then. One whose name got a later verdict is put away.
    fn bring_back_since(&mut self, alloc: Global, name: &str, waits: Stamp) -> io::Result<()> {
        let is_outdated = self.is_outdated(alloc, taken_back(name).unwrap_or(name), waits)?;
        let to = if is_outdated {
            Some(Shelf::Taken)
        } else {
            None
        };
        self.move_file(Some(Shelf::Later), name, to)
    }

    // Brings a file back that waits in `later`. One that lies in the folder goes first.
    fn bring_back_one(&mut self, alloc: Global, name: &str) -> io::Result<()> {
        let lies = self.moved_at(None, name)?;
        match self.moved_at(Some(Shelf::Later), name)? {
            Some(waits) if lies.is_none() => self.bring_back_since(alloc, name, waits),
            _ => Ok(()),
        }
    }

    // Brings the files back that wait in `later`. Returns whether any waits. One that can't be brought back keeps no
    // other from coming.
    pub fn bring_back(&mut self, alloc: Global) -> io::Result<bool> {
        let names = names_inside(self, alloc, "later/")?;
        for name in names.offered.as_slice() {
            let _brought = self.bring_back_one(alloc, name.as_str());
        }
        let has_any = !names.offered.is_empty();
        drop(names);
        Ok(has_any)
    }
}
