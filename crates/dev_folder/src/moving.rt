//! Files that are moved between the folder of an inbox and those inside it.

use crate::held_back::{Given, HeldBack, Reason};
use crate::names::{Shelf, taken_back};
use crate::paths::{Move, path_inside};
use crate::stamp::{Lies, Stamp, look_at};
use std::alloc::{AllocError, Global};
use std::io::{self, Error, ErrorKind};
use std::{fs, rt};

// The folders inside a folder.
const SHELVES: &[Shelf] = &[Shelf::Done, Shelf::Refused, Shelf::Later, Shelf::Taken];

// Makes a folder that isn't there.
fn make_folder<R: rt::Files>(rt: &R, path: &str) -> io::Result<()> {
    match fs::create_dir(rt, path) {
        Err(error) if error.kind() == ErrorKind::AlreadyExists => {
            if fs::metadata(rt, path)?.is_dir() {
                Ok(())
            } else {
                Err(error)
            }
        }
        made => made,
    }
}

// The names in a folder, or in one inside it, as they are listed.
pub(crate) fn open_inside<R: rt::Files>(
    rt: &R,
    alloc: Global,
    folder: &str,
    inner: &str,
) -> io::Result<R::Dir> {
    let path = path_inside(alloc, folder, inner)?;
    let opened = rt.open_dir(path.as_str());
    drop(path);
    opened
}

// Makes a folder inside a folder, where it is missing.
fn make_missing<R: rt::Files>(
    rt: &R,
    moves: &mut Move,
    folder: &str,
    shelf: Shelf,
) -> io::Result<()> {
    moves.set_shelf(folder, shelf)?;
    make_folder(rt, moves.to.as_str())
}

// Makes the folders inside a folder.
fn make_shelves<R: rt::Files>(rt: &R, moves: &mut Move, folder: &str) -> io::Result<()> {
    for shelf in SHELVES {
        make_missing(rt, moves, folder, *shelf)?;
    }
    Ok(())
}

// Makes the folders inside a folder, which has to be one that can be listed.
pub(crate) fn prepare<R: rt::Files>(rt: &R, alloc: Global, folder: &str) -> io::Result<()> {
    drop(open_inside(rt, alloc, folder, "")?);
    let mut moves = Move::new(alloc);
    let made = make_shelves(rt, &mut moves, folder);
    drop(moves);
    made
}

// Moves the files of a folder.
#[derive(Drop)]
pub(crate) struct Mover<R: rt::Files + Drop> {
    pub rt: R,
    pub folder: String,
    pub moves: Move,
}

impl<R: rt::Files + Drop> Mover<R> {
    // Makes room for the moves of a name.
    pub fn make_room(&mut self, name: &str) -> Result<(), AllocError> {
        self.moves.make_room(self.folder.as_str(), name)
    }

    // Moves a file between the folder and those inside it. Returns whether there were the file and the folder that it
    // goes to.
    fn rename(&mut self, from: Option<Shelf>, name: &str, to: Option<Shelf>) -> io::Result<bool> {
        self.moves.set(self.folder.as_str(), from, name, to)?;
        match fs::rename(&self.rt, self.moves.from.as_str(), self.moves.to.as_str()) {
            Ok(()) => Ok(true),
            Err(error) if error.kind() == ErrorKind::NotFound => Ok(false),
            Err(error) => Err(error),
        }
    }

    // Moves a file between the folder and those inside it. The one that it goes to is made where it is missing. A file
    // that vanished needs no move.
    pub fn move_file(
        &mut self,
        from: Option<Shelf>,
        name: &str,
        to: Option<Shelf>,
    ) -> io::Result<()> {
        let is_moved = self.rename(from, name, to)?;
        if let Some(shelf) = to
            && !is_moved
        {
            make_missing(&self.rt, &mut self.moves, self.folder.as_str(), shelf)?;
            let _vanished = self.rename(from, name, to)?;
        }
        Ok(())
    }

    // Moves a file from those that were published that a name takes back, so that no restart brings it back.
    fn take_back(&mut self, name: &str, to: Shelf) -> io::Result<()> {
        match (taken_back(name), to) {
            (None, _) | (_, Shelf::Later) => Ok(()),
            (Some(back), _) => self.move_file(Some(Shelf::Done), back, Some(Shelf::Taken)),
        }
    }

    // What lies under a name.
    pub fn lies_at(&mut self, name: &str) -> Result<Lies, AllocError> {
        self.moves.set(self.folder.as_str(), None, name, None)?;
        Ok(look_at(&self.rt, self.moves.from.as_str()))
    }

    // The file that lies under a name, where one does.
    pub fn file_at(&mut self, name: &str) -> io::Result<Option<Stamp>> {
        match self.lies_at(name)? {
            Lies::File(stamp) => Ok(Some(stamp)),
            Lies::Other => Ok(None),
            Lies::Unknown(error) => Err(error),
        }
    }

    // Moves a file that just got its verdict, unless another one came under its name meanwhile, which is offered next.
    pub fn settle_file(&mut self, given: &Given, to: Shelf) -> io::Result<()> {
        let name = given.name.as_str();
        self.take_back(name, to)?;
        match self.file_at(name)? {
            Some(stamp) if stamp.number == given.stamp.number => {
                self.move_file(None, name, Some(to))
            }
            _ => Ok(()),
        }
    }

    // Moves a file that got its verdict before, unless it changed meanwhile, or another one came under its name.
    fn settle_same(&mut self, given: &Given, to: Shelf) -> io::Result<()> {
        match self.file_at(given.name.as_str())? {
            Some(stamp) if stamp == given.stamp => self.settle_file(given, to),
            _ => Ok(()),
        }
    }

    // Moves the files again that couldn't be moved. Returns the last error, if one still can't.
    pub fn move_again(&mut self, held_back: &mut HeldBack) -> Option<Error> {
        let mut failed = None;
        for held in held_back.all.as_mut_slice() {
            held.is_kept = true;
            if let Reason::Unmoved(to) = held.reason {
                match self.settle_same(&held.given, to) {
                    Ok(()) => held.is_kept = false,
                    Err(error) => failed = Some(error),
                }
            }
        }
        held_back.end();
        failed
    }
}
