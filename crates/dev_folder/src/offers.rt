//! The files of a folder that are offered.
ghost use Rattle.std.specs.Prelude.{reverse};
ghost use Rattle.std.specs.List.Sorted.{IsPermutation, IsSorted};

use crate::held_back::{Given, HeldBack};
use crate::moving::Mover;
use crate::stamp::{Lies, Stamp};
use fm_base::{Bytes, List};
use std::alloc::{AllocError, Global};
use std::mem::replace;
use std::rt;

// The files of a folder, as far as they are known.
#[derive(Drop)]
pub(crate) struct Offers {
    // those of the last listing that are left, the last first
    batch: Vec<Given>,
    // the one that was given last
    pub given: Option<Given>,
    // those that aren't offered again yet, and room for one
    pub held_back: HeldBack,
}

impl Offers {
    // Before the first listing.
    pub fn new(alloc: Global) -> Offers {
        Offers {
            batch: Vec::new(alloc),
            given: None,
            held_back: HeldBack::new(alloc),
        }
    }

    // The name of the next file. Room is made first for all that its verdict takes.
    pub fn next<R: rt::Files + Drop>(
        &mut self,
        mover: &mut Mover<R>,
        alloc: Global,
    ) -> Result<Option<Bytes>, AllocError> {
        let Some(next) = self.batch.last() else {
            return Ok(None);
        };
        let name = name_of(next, mover, &mut self.held_back, alloc)?;
        drop(replace(&mut self.given, self.batch.pop()));
        Ok(Some(name))
    }

    // Whether a file is left to be given, or to be read again.
    pub fn has_unread(&self) -> bool {
        !self.batch.is_empty() || self.held_back.first(false).is_some()
    }

    // Makes the files of some names the next batch, as far as they are offered.
    pub fn list<R: rt::Files + Drop>(
        &mut self,
        mover: &mut Mover<R>,
        names: Vec<String>,
        now: u64,
    ) -> Result<(), AllocError> {
        self.held_back.begin();
        let listed = self.put_all(mover, names, now);
        if listed.is_ok() {
            self.held_back.end();
        } else {
            self.batch.clear();
        }
        listed
    }

    // Puts the files of some names, the last first.
    fn put_all<R: rt::Files + Drop>(
        &mut self,
        mover: &mut Mover<R>,
        names: Vec<String>,
        now: u64,
    ) -> Result<(), AllocError> {
        let mut names = names;
        put_last_first(&mut names);
        for name in names {
            self.put(mover, name, now)?;
        }
        Ok(())
    }

    // Puts the file of a name, where one is offered.
    fn put<R: rt::Files + Drop>(
        &mut self,
        mover: &mut Mover<R>,
        name: String,
        now: u64,
    ) -> Result<(), AllocError> {
        match offered_at(mover, name.as_str(), &mut self.held_back, now) {
            Ok(Some(stamp)) => Ok(self.batch.push(Given { name, stamp })?),
            Ok(None) => {
                drop(name);
                Ok(())
            }
            Err(AllocError) => {
                drop(name);
                Err(AllocError)
            }
        }
    }
}

// The name of a file that is to be given, once there is room for all that its verdict takes.
fn name_of<R: rt::Files + Drop>(
    next: &Given,
    mover: &mut Mover<R>,
    held_back: &mut HeldBack,
    alloc: Global,
) -> Result<Bytes, AllocError> {
    let name = next.name.as_str();
    mover.make_room(name)?;
    held_back.make_room()?;
    let name = String::from_str(alloc, name)?;
    Ok(List {
        items: name.into_bytes(),
    })
}

// The file that is offered under a name: one that lies there, unless it is held back. A name that can't be looked at
// keeps no other from coming.
fn offered_at<R: rt::Files + Drop>(
    mover: &mut Mover<R>,
    name: &str,
    held_back: &mut HeldBack,
    now: u64,
) -> Result<Option<Stamp>, AllocError> {
    match mover.lies_at(name)? {
        Lies::File(stamp) => {
            let is_held = held_back.holds(name, stamp, now);
            Ok(if is_held { None } else { Some(stamp) })
        }
        Lies::Other => Ok(None),
        Lies::Unknown(_) => {
            held_back.keep(name);
            Ok(None)
        }
    }
}

// Puts names in byte order, from the last to the first.
fn put_last_first(names: &mut Vec<String>)
    ensures same { IsPermutation names.old.items (reverse names.new.items) }
    ensures order { IsSorted ⟦<String as Ord>⟧.cmp (reverse names.new.items) }
{
    names.sort_unstable();
    names.reverse();
}
