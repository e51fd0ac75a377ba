//! The paths inside the folder of an inbox.
ghost use Rattle.std.specs.Prelude.{◌≡◌, ◌+◌, ◌≤◌, length, IfOk, IsOk, OnOk};
ghost use Rattle.std.specs.String.{string_bytes, string_capacity, string_len};
ghost use Rattle.dev_folder.specs.Names.{shelf_name};
ghost use Rattle.dev_folder.specs.Paths.{HasRoom, inside, path_at};

use crate::names::Shelf;
use std::alloc::{AllocError, Global};
use std::io::{self, Error, ErrorKind};

// The length of the longest name of a folder for files, with a slash before it and after it.
const LONGEST: usize = 9;

// Makes the path of a name inside a folder, over what was there.
fn set_inside(path: &mut String, folder: &str, name: &str) -> Result<(), AllocError>
    ensures ok { OnOk result (string_bytes path.new ≡ inside folder.now name.now) }
    ensures len { OnOk result (string_len path.new ≡ length folder.now + length name.now + 1) }
    ensures capacity { string_capacity path.old ≤ string_capacity path.new }
    ensures succeeds { length folder.now + length name.now + 1 ≤ string_capacity path.old → IsOk result }
{
    path.clear();
    path.push_str(folder)?;
    path.push_str("/")?;
    path.push_str(name)
}

// Makes the path of a name inside a folder inside a folder, over what was there.
fn set_twice_inside(
    path: &mut String,
    folder: &str,
    inner: &str,
    name: &str,
) -> Result<(), AllocError>
    ensures ok { OnOk result (string_bytes path.new ≡ inside (inside folder.now inner.now) name.now) }
    ensures succeeds { length folder.now + length inner.now + length name.now + 2 ≤ string_capacity path.old
        → IsOk result }
{
    set_inside(path, folder, inner)?;
    path.push_str("/")?;
    path.push_str(name)
}

// Makes the path of a name in a folder, or in one inside it, over what was there.
#[tactic(auto, using(crate::proofs::PathLemmas::shelves))]
fn set_at(
    path: &mut String,
    folder: &str,
    place: Option<Shelf>,
    name: &str,
) -> Result<(), AllocError>
    ensures ok { OnOk result (string_bytes path.new ≡ path_at folder.now place name.now) }

    // Memory may only run out where no room was made.
    ensures succeeds { length folder.now + length name.now + 9 ≤ string_capacity path.old → IsOk result }
{
    match place {
        None => set_inside(path, folder, name),
        Some(shelf) => set_twice_inside(path, folder, shelf.name(), name),
    }
}

// The path of a name inside a folder; without a name it ends in a slash, so that a link to the folder is followed. No
// folder has an empty path.
pub(crate) fn path_inside(alloc: Global, folder: &str, name: &str) -> io::Result<String>
    ensures { IfOk result (λ path. string_bytes path ≡ inside folder.now name.now) }
{
    if folder.is_empty() {
        return Err(Error::from(ErrorKind::NotFound));
    }
    let mut path = String::new(alloc);
    match set_inside(&mut path, folder, name) {
        Ok(()) => Ok(path),
        Err(error) => {
            drop(path);
            Err(Error::from(error))
        }
    }
}

// An empty path with room for `room` bytes.
fn make_room_in(path: &mut String, room: usize) -> Result<(), AllocError>
    ensures { OnOk result (room ≤ string_capacity path.new) }
{
    path.clear();
    path.reserve(room)
}

// The paths between which a file is moved. A move takes no memory once room was made for its name.
#[derive(Drop)]
pub(crate) struct Move {
    pub from: String,
    pub to: String,
}

impl Move {
    // Without room.
    pub fn new(alloc: Global) -> Move {
        Move {
            from: String::new(alloc),
            to: String::new(alloc),
        }
    }

    // Makes room for a move of this name between the folder and those inside it.
    pub fn make_room(&mut self, folder: &str, name: &str) -> Result<(), AllocError>
        ensures { OnOk result (HasRoom self.new folder.now name.now) }
    {
        let Some(room) = folder.len().checked_add(name.len()) else {
            return Err(AllocError);
        };
        let Some(room) = room.checked_add(LONGEST) else {
            return Err(AllocError);
        };
        make_room_in(&mut self.from, room)?;
        make_room_in(&mut self.to, room)
    }

    // From the folder, or one inside it, to another of these.
    pub fn set(
        &mut self,
        folder: &str,
        from: Option<Shelf>,
        name: &str,
        to: Option<Shelf>,
    ) -> Result<(), AllocError>
        ensures from { OnOk result (string_bytes self.new.from ≡ path_at folder.now from name.now) }
        ensures to { OnOk result (string_bytes self.new.to ≡ path_at folder.now to name.now) }

        // Memory may only run out where no room was made.
        ensures succeeds { HasRoom self.old folder.now name.now → IsOk result }
    {
        set_at(&mut self.from, folder, from, name)?;
        set_at(&mut self.to, folder, to, name)
    }

    // To a folder inside the folder itself.
    pub fn set_shelf(&mut self, folder: &str, shelf: Shelf) -> Result<(), AllocError>
        ensures { OnOk result (string_bytes self.new.to ≡ inside folder.now (shelf_name shelf)) }
    {
        set_inside(&mut self.to, folder, shelf.name())
    }
}
