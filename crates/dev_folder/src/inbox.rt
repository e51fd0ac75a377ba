//! A folder of the machine as an inbox.
ghost use Rattle.std.specs.Prelude.{IfOk, IsOk, None};
ghost use Rattle.dev_traits.specs.Cause.{HasCause, HasReadCause};
ghost use Rattle.dev_traits.specs.Files.{KeepsLimit};

use crate::held_back::{Given, MINUTE, Reason};
use crate::moving::{Mover, prepare};
use crate::names::{Shelf, shelf_of};
use crate::offers::Offers;
use crate::paths::Move;
use crate::reading::read_inside;
use crate::stop::FolderStop;
use crate::troubles::Troubles;
use dev_std::{Event, Stops, Tell, present, tell_of, tell_unopened};
use dev_traits::{Arrival, Failed, Found, Inbox, Verdict};
use fm_base::Fail;
use std::alloc::Global;
use std::io::{Error, ErrorKind};
use std::marker::Send;
use std::{rt, str};

/// The files of a folder whose names end in `.nc` or `.retract`, in byte order of one listing after another. It is done
/// once a file `STOP` lies there and no name is left, and that holds of all folders of the server. A file goes to a
/// folder inside it by its verdict. What fails is said, and made again: no call fails but for memory.
#[derive(Drop)]
pub struct FolderInbox<R: rt::Files + rt::Clock + Drop, T: Tell + Drop> {
    pub(crate) mover: Mover<R>,
    pub(crate) tell: T,
    pub(crate) stop: FolderStop,
    pub(crate) offers: Offers,
    // the names of the last listing that aren't offered, and look as if they should be, in order
    pub(crate) mistaken: Vec<Vec<u8>>,
    // when the files that wait in `later` are brought back
    pub(crate) later: Option<u64>,
    pub(crate) troubles: Troubles,
}

impl<R: rt::Files + rt::Clock + Drop, T: Tell + Drop> FolderInbox<R, T> {
    /// The inbox of a folder that can be listed, with the folders inside it.
    pub fn open(
        rt: R,
        tell: T,
        stops: Stops,
        alloc: Global,
        folder: &[u8],
    ) -> Result<FolderInbox<R, T>, Fail<Failed>> {
        let folder = prepared(&rt, &tell, alloc, folder)?;
        let later = Some(present(&rt).saturating_add(MINUTE));
        Ok(FolderInbox {
            mover: Mover {
                rt,
                folder,
                moves: Move::new(alloc),
            },
            tell,
            stop: FolderStop::of(stops),
            offers: Offers::new(alloc),
            mistaken: Vec::new(alloc),
            later,
            troubles: Troubles::none(),
        })
    }

    /// What takes its lines.
    pub fn teller(&self) -> &T {
        &self.tell
    }

    // Says what became of the folder.
    pub(crate) fn say(&self, event: Event<'_>) {
        tell_of(&self.tell, self.mover.folder.as_str(), event);
    }

    // What was found of a file that couldn't be read: none, unless memory ran out.
    fn unread(&mut self, name: &[u8], error: Error) -> Result<Found, Fail<Failed>>
        ensures cause { HasReadCause 0 0 result }
        ensures limit { (limit : _) → IfOk result (KeepsLimit limit) }
    {
        if error.kind() == ErrorKind::OutOfMemory {
            return Err(Fail::NoMemory);
        }
        if self.troubles.reading.fails(present(&self.mover.rt)) {
            self.say(Event::failing(name, " can't be read", error));
        }
        Ok(Found::Absent)
    }

    // Moves a file to the folder of its verdict, or keeps it from being offered again for a while.
    fn put_away(&mut self, given: Given, verdict: Verdict) {
        let now = present(&self.mover.rt);
        match shelf_of(verdict) {
            Some(shelf) => self.put_on(shelf, given, now),
            None => self.offers.held_back.put(given, Reason::Unread(now)),
        }
    }

    // Moves a file to a folder, or keeps it from being offered again until that is done.
    fn put_on(&mut self, shelf: Shelf, given: Given, now: u64) {
        if matches!(shelf, Shelf::Later) && self.later.is_none() {
            self.later = Some(now.saturating_add(MINUTE));
        }
        match self.mover.settle_file(&given, shelf) {
            Ok(()) => drop(given),
            Err(error) => {
                self.offers.held_back.put(given, Reason::Unmoved(shelf));
                self.move_failed(error, now);
            }
        }
    }
}

// The path of a folder, which is text, once the folders inside it are there. It is told where that can't be.
fn prepared<R: rt::Files, T: Tell>(
    rt: &R,
    tell: &T,
    alloc: Global,
    folder: &[u8],
) -> Result<String, Fail<Failed>> {
    let Ok(folder) = str::from_utf8(folder) else {
        return Err(Fail::Fault(Failed));
    };
    match prepare(rt, alloc, folder) {
        Ok(()) => Ok(String::from_str(alloc, folder)?),
        Err(error) => Err(tell_unopened(tell, folder, error)),
    }
}

impl<R: rt::Files + rt::Clock + Drop + Send, T: Tell + Drop + Send> Inbox for FolderInbox<R, T> {
    ghost shown = { λ _. record { held = None; faults = 0 } };

    fn faults(&self) -> u64 {
        0
    }

    /// It never fails: where it isn't known what lies in the folder, nothing has come yet.
    fn next(&mut self, alloc: Global) -> Result<Arrival, Fail<Failed>>
        ensures ok { IsOk result }
        ensures cause { HasReadCause 0 0 result }
    {
        match self.arrival(alloc) {
            Ok(arrival) => Ok(arrival),
            Err(error) => Ok(self.unlisted(error)),
        }
    }

    /// A file that can't be read stays where it is, as where there is none, and keeps no other from coming.
    fn fetch(&mut self, alloc: Global, name: &[u8], limit: u64) -> Result<Found, Fail<Failed>>
        ensures limit { IfOk result (KeepsLimit limit) }

        // It fails for memory alone.
        ensures cause { HasReadCause 0 0 result }
    {
        match read_inside(
            &self.mover.rt,
            alloc,
            self.mover.folder.as_str(),
            name,
            limit,
        ) {
            Ok(read) => {
                if read.is_relative {
                    self.say(Event::passed_over(name, " is a relative link"));
                }
                Ok(read.found)
            }
            Err(error) => self.unread(name, error),
        }
    }

    /// It never fails: a move that fails is made again later.
    fn settle(&mut self, _name: &[u8], verdict: Verdict) -> Result<(), Failed>
        ensures ok { IsOk result }
        ensures cause { HasCause 0 0 result }
    {
        if let Some(given) = self.offers.given.take() {
            self.put_away(given, verdict);
        }
        Ok(())
    }

    fn note(&mut self, line: &[&[u8]]) {
        self.tell.tell(line);
    }
}
