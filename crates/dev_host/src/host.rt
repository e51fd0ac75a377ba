//! The machine, and what its doors, inboxes and clocks share.
ghost use Rattle.std.specs.Prelude.{◌≡◌, IfOk};

use crate::bound::{Bound, shared_listener, voice_at};
use crate::clock::RealClock;
use crate::collections::Prefix;
use crate::telling::Teller;
use dev_folder::{FolderInbox, Lockable, lock};
use dev_net::{Patience, TcpDoor};
use dev_std::{Stops, fail_of};
use dev_traits::Failed;
use fm_base::{Fail, List};
use std::alloc::{AllocError, Global};
use std::net::{Net, TcpListener};
use std::time::Duration;
use std::{rt, str};

// How many seconds it is from one tick of a clock to the next.
const INTERVAL: u64 = 60;

// The machine, and what its doors, inboxes and clocks share.
#[derive(Drop)]
pub(crate) struct Host<R: rt::Files + Drop> {
    pub rt: R,
    pub tell: Teller<R>,
    // none before the first door or inbox
    stops: Option<Stops>,
    bound: List<Bound>,
    // the folders of the inboxes, which are locked
    locked: Vec<R::File>,
}

impl<R> Host<R>
where
    R: rt::Files + rt::Clock + Net + AllocGlobal + Clone + Drop,
    R::File: Lockable,
{
    // Nothing is open.
    pub fn new(rt: R, tell: Teller<R>) -> Host<R> {
        let bound = List::new(rt.alloc());
        let locked = Vec::new(rt.alloc());
        Host {
            rt,
            tell,
            stops: None,
            bound,
            locked,
        }
    }

    // What each door and each inbox has for its own: the machine, and the stops that all of them share.
    fn own_parts(&mut self, alloc: Global) -> Result<(R, Stops), Fail<Failed>> {
        let stops = shared_stops(&mut self.stops, alloc)?;
        match self.rt.clone() {
            Ok(rt) => Ok((rt, stops)),
            Err(error) => {
                drop(stops);
                Err(Fail::from(error))
            }
        }
    }

    // A door at an address.
    pub fn door(
        &mut self,
        alloc: Global,
        address: &[u8],
        connections: u32,
    ) -> Result<TcpDoor<R, Teller<R>>, Fail<Failed>>
        ensures fresh { IfOk result (λ door. door.faults ≡ 0) }
        ensures patience { IfOk result (λ door. door.patience ≡ record { idle = 30_000; grace = 60_000 }) }
    {
        let voice = voice_at(self.bound.as_slice(), &self.tell, alloc, address)?;
        match self.silent_door(alloc, address, connections) {
            Ok(door) => Ok(door.telling(voice)),
            Err(fail) => {
                drop(voice);
                Err(fail)
            }
        }
    }

    // The same, which tells nothing yet.
    fn silent_door(
        &mut self,
        alloc: Global,
        address: &[u8],
        connections: u32,
    ) -> Result<TcpDoor<R, Teller<R>>, Fail<Failed>>
        ensures fresh { IfOk result (λ door. door.faults ≡ 0) }
        ensures patience { IfOk result (λ door. door.patience ≡ record { idle = 30_000; grace = 60_000 }) }
    {
        let listener = shared_listener(&mut self.bound, &self.rt, &self.tell, alloc, address)?;
        match self.own_parts(alloc) {
            Ok((rt, stops)) => server_door(rt, alloc, listener, connections, stops),
            Err(fail) => {
                drop(listener);
                Err(fail)
            }
        }
    }

    // Locks the folder of an inbox. Returns what the inbox has for its own.
    fn locked_parts(
        &mut self,
        alloc: Global,
        tell: &Teller<R>,
        folder: &str,
    ) -> Result<(R, Stops), Fail<Failed>> {
        lock(&self.rt, tell, alloc, folder, &mut self.locked)?;
        self.own_parts(alloc)
    }

    // The inbox of a folder, whose lines begin so.
    pub fn inbox(
        &mut self,
        alloc: Global,
        prefix: Prefix,
        folder: &[u8],
    ) -> Result<FolderInbox<R, Teller<R>>, Fail<Failed>> {
        let Ok(path) = str::from_utf8(folder) else {
            return Err(Fail::Fault(Failed));
        };
        let tell = self.tell.about(prefix)?;
        match self.locked_parts(alloc, &tell, path) {
            Ok((rt, stops)) => FolderInbox::open(rt, tell, stops, alloc, folder),
            Err(fail) => {
                drop(tell);
                Err(fail)
            }
        }
    }

    // A clock, whose lines begin so.
    pub fn clock(&self, prefix: Prefix, ticks: u32) -> RealClock<R, Teller<R>> {
        let stops = match &self.stops {
            Some(stops) => stops.share().ok(),
            None => None,
        };
        RealClock::of(
            self.rt.clone().ok(),
            self.tell.about(prefix).ok(),
            ticks,
            Duration::from_secs(INTERVAL),
            stops,
        )
    }
}

// A door of the server's patience.
fn server_door<R: rt::Clock + Net + AllocGlobal + Clone + Drop>(
    rt: R,
    alloc: Global,
    listener: TcpListener,
    connections: u32,
    stops: Stops,
) -> Result<TcpDoor<R, Teller<R>>, Fail<Failed>>
    ensures fresh { IfOk result (λ door. door.faults ≡ 0) }
    ensures patience { IfOk result (λ door. door.patience ≡ record { idle = 30_000; grace = 60_000 }) }
{
    match TcpDoor::new(
        rt,
        alloc,
        listener,
        connections,
        Patience::of_server(),
        stops,
    ) {
        Ok(door) => Ok(door),
        Err(error) => Err(fail_of(&error)),
    }
}

// The stops that the devices of an opener share, which the first of them makes.
fn shared_stops(stops: &mut Option<Stops>, alloc: Global) -> Result<Stops, AllocError> {
    if let Some(stops) = stops {
        return stops.share();
    }
    let first = Stops::new(alloc)?;
    let shared = first.share();
    drop(stops.replace(first));
    shared
}
