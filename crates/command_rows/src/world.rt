//! The world in memory that a row describes.
ghost use Rattle.std.specs.Prelude.{◌≡◌, All, IfOk};
ghost use Rattle.std.specs.Option.{ForSome};
ghost use Rattle.dev_traits.specs.Door.{IsFresh};

use crate::arriving::Arriving;
use crate::course::{Course, Watch};
use crate::doored::Doored;
use crate::given::Given;
use crate::linked::Linked;
use crate::paced::Paced;
use dev_memory::{
    Entry, MemClock, MemDial, MemDoor, MemFiles, MemInbox, MemLink, MemOpener, MemSink, PausedLink,
    Pauses,
};
use dev_traits::{Devices, Door, Inbox, Link, World};
use fm_base::{Bytes, List, NoMemory};
use std::alloc::Global;

/// A world in memory.
pub type MemWorld<'a> = World<Paced<'a>>;

// Links to come, none of which was used.
#[derive(Drop)]
struct Links {
    list: List<PausedLink>,
    ghost fresh: { All (λ link. IsFresh (⟦<PausedLink as Link>⟧.shown link)) list },
}

impl Links {
    fn push(&mut self, link: PausedLink) -> Result<(), NoMemory>
        requires { IsFresh (⟦<PausedLink as Link>⟧.shown link) }
    {
        self.list.push(link)
    }

    fn into_list(self) -> List<PausedLink>
        ensures { All (λ link. IsFresh (⟦<PausedLink as Link>⟧.shown link)) result }
    {
        self.list
    }
}

// Doors to open, none of which has failed.
#[derive(Drop)]
struct Doors {
    list: List<MemDoor>,
    ghost calm: { All (λ door. (⟦<MemDoor as Door>⟧.shown door).faults ≡ 0) list },
}

impl Doors {
    fn push(&mut self, door: MemDoor) -> Result<(), NoMemory>
        requires { (⟦<MemDoor as Door>⟧.shown door).faults ≡ 0 }
    {
        self.list.push(door)
    }

    fn into_list(self) -> List<MemDoor>
        ensures { All (λ door. (⟦<MemDoor as Door>⟧.shown door).faults ≡ 0) result }
    {
        self.list
    }
}

// Inboxes to open, none of which has failed.
#[derive(Drop)]
struct Inboxes {
    list: List<MemInbox>,
    ghost calm: { All (λ inbox. (⟦<MemInbox as Inbox>⟧.shown inbox).faults ≡ 0) list },
}

impl Inboxes {
    fn push(&mut self, inbox: MemInbox) -> Result<(), NoMemory>
        requires { (⟦<MemInbox as Inbox>⟧.shown inbox).faults ≡ 0 }
    {
        self.list.push(inbox)
    }

    fn into_list(self) -> List<MemInbox>
        ensures { All (λ inbox. (⟦<MemInbox as Inbox>⟧.shown inbox).faults ≡ 0) result }
    {
        self.list
    }
}

/// The bytes that a link or the sink takes before it fails, where a row says nothing else.
pub const ROOM: usize = 65_536;

fn copy_of<T: Copy + Drop>(alloc: Global, items: &List<T>) -> Result<List<T>, NoMemory> {
    let mut copy = List::new(alloc);
    for item in items.as_slice() {
        copy.push(*item)?;
    }
    Ok(copy)
}

fn names_of(alloc: Global, names: &List<Bytes>) -> Result<List<Bytes>, NoMemory> {
    let mut copies = List::new(alloc);
    for name in names.as_slice() {
        copies.push(Bytes::copy_of(alloc, name.as_slice())?)?;
    }
    Ok(copies)
}

fn entries_of(alloc: Global, entries: &List<Entry>) -> Result<List<Entry>, NoMemory> {
    let mut copies = List::new(alloc);
    for entry in entries.as_slice() {
        copies.push(entry_of(alloc, entry)?)?;
    }
    Ok(copies)
}

fn entry_of(alloc: Global, entry: &Entry) -> Result<Entry, NoMemory> {
    Ok(Entry {
        path: Bytes::copy_of(alloc, entry.path.as_slice())?,
        content: Bytes::copy_of(alloc, entry.content.as_slice())?,
    })
}

fn link_of(alloc: Global, linked: &Linked) -> Result<MemLink, NoMemory>
    ensures { IfOk result (λ link. IsFresh (⟦<MemLink as Link>⟧.shown link)) }
{
    let input = Bytes::copy_of(alloc, linked.input.as_slice())?;
    let link = MemLink::new(alloc, input, linked.room, copy_of(alloc, &linked.failing)?)?;
    let link = link.in_pieces(linked.most_taken, linked.most_put);
    Ok(match linked.hold {
        Some(hold) => link.held_back(hold.offset, hold.put),
        None => link,
    })
}

// A link of a door, with its pauses.
fn paused_of(alloc: Global, linked: &Linked) -> Result<PausedLink, NoMemory>
    ensures { IfOk result (λ link. IsFresh (⟦<PausedLink as Link>⟧.shown link)) }
{
    let link = link_of(alloc, linked)?;
    if linked.is_halting {
        return Ok(PausedLink::new(link, Pauses::each(alloc), Pauses::each(alloc)));
    }
    let takes = Pauses::at(copy_of(alloc, &linked.pauses)?);
    let puts = Pauses::at(copy_of(alloc, &linked.put_pauses)?);
    Ok(PausedLink::new(link, takes, puts))
}

// The links of the door with this number, from 1.
fn links_of(alloc: Global, given: &Given, door: usize) -> Result<List<PausedLink>, NoMemory>
    ensures { IfOk result (All (λ link. IsFresh (⟦<PausedLink as Link>⟧.shown link))) }
{
    let mut links = Links {
        list: List::new(alloc),
    };
    for linked in &given.links {
        if linked.door == door {
            links.push(paused_of(alloc, linked)?)?;
        }
    }
    Ok(links.into_list())
}

fn doors_of(alloc: Global, given: &Given) -> Result<List<MemDoor>, NoMemory>
    ensures { IfOk result (All (λ door. (⟦<MemDoor as Door>⟧.shown door).faults ≡ 0)) }
{
    let mut doors = Doors {
        list: List::new(alloc),
    };
    for (index, doored) in given.doors.iter().enumerate() {
        doors.push(door_of(alloc, given, index.saturating_add(1), doored)?)?;
    }
    Ok(doors.into_list())
}

// The door with this number, from 1.
fn door_of(
    alloc: Global,
    given: &Given,
    number: usize,
    doored: &Doored,
) -> Result<MemDoor, NoMemory>
    ensures { IfOk result (λ door. (⟦<MemDoor as Door>⟧.shown door).faults ≡ 0) }
{
    let links = links_of(alloc, given, number)?;
    let door = MemDoor::new(alloc, links, copy_of(alloc, &doored.failing)?)?;
    Ok(door.with_events(copy_of(alloc, &doored.events)?))
}

fn inbox_of(alloc: Global, arriving: &Arriving) -> Result<MemInbox, NoMemory>
    ensures { IfOk result (λ inbox. (⟦<MemInbox as Inbox>⟧.shown inbox).faults ≡ 0) }
{
    let names = names_of(alloc, &arriving.names)?;
    let files = entries_of(alloc, &arriving.files)?;
    MemInbox::new(alloc, names, files, copy_of(alloc, &arriving.failing)?)
}

fn inboxes_of(alloc: Global, given: &Given) -> Result<List<MemInbox>, NoMemory>
    ensures { IfOk result (All (λ inbox. (⟦<MemInbox as Inbox>⟧.shown inbox).faults ≡ 0)) }
{
    let mut inboxes = Inboxes {
        list: List::new(alloc),
    };
    for arriving in &given.inboxes {
        inboxes.push(inbox_of(alloc, arriving)?)?;
    }
    Ok(inboxes.into_list())
}

fn clocks_of(alloc: Global, given: &Given) -> Result<List<MemClock>, NoMemory> {
    let mut clocks = List::new(alloc);
    for numbers in &given.clocks {
        clocks.push(clock_of(alloc, numbers)?)?;
    }
    Ok(clocks)
}

fn clock_of(alloc: Global, numbers: &List<u64>) -> Result<MemClock, NoMemory> {
    let mut moments = List::new(alloc);
    for number in numbers.as_slice() {
        moments.push(i64::try_from(*number).unwrap_or(i64::MAX))?;
    }
    MemClock::new(alloc, moments)
}

fn own_link(alloc: Global, given: &Given) -> Result<MemLink, NoMemory> {
    match given.links.first() {
        Some(linked) => link_of(alloc, linked),
        None => link_of(alloc, &Linked::new(alloc, 0)),
    }
}

// The link that the dialer gives, if it gives one.
fn peer_of(alloc: Global, given: &Given) -> Result<Option<MemLink>, NoMemory>
    ensures { IfOk result (λ found. ForSome found (λ link. IsFresh (⟦<MemLink as Link>⟧.shown link))) }
{
    match &given.peer {
        Some(linked) => Ok(Some(link_of(alloc, linked)?)),
        None => Ok(None),
    }
}

fn dial_of(alloc: Global, given: &Given) -> Result<MemDial, NoMemory> {
    let link = peer_of(alloc, given)?;
    MemDial::new(alloc, link, copy_of(alloc, &given.failing_dial)?)
}

/// The world that a row describes, with a course that its devices take.
pub fn world_of<'a>(
    alloc: Global,
    given: &Given,
    course: &'a Course,
) -> Result<MemWorld<'a>, NoMemory> {
    let served = both(opener_of(alloc, given), files_of(alloc, given));
    let own = both(own_link(alloc, given), sink_of(alloc, given));
    let ((opener, files), ((link, sink), dial)) = both(served, both(own, dial_of(alloc, given)))?;
    Ok(World {
        opener: Paced { opener, course },
        devices: Devices::none(alloc),
        files,
        link,
        sink,
        gate: Watch { course },
        dial,
    })
}

// Both values, where memory sufficed for both.
fn both<A: Drop, B: Drop>(
    first: Result<A, NoMemory>,
    second: Result<B, NoMemory>,
) -> Result<(A, B), NoMemory> {
    let first = first?;
    Ok((first, second?))
}

fn sink_of(alloc: Global, given: &Given) -> Result<MemSink, NoMemory> {
    MemSink::new(alloc, ROOM, copy_of(alloc, &given.failing_sink)?)
}

fn files_of(alloc: Global, given: &Given) -> Result<MemFiles, NoMemory> {
    let failing = copy_of(alloc, &given.failing_files)?;
    Ok(MemFiles::new(entries_of(alloc, &given.files)?, failing))
}

fn opener_of(alloc: Global, given: &Given) -> Result<MemOpener, NoMemory> {
    let failing = copy_of(alloc, &given.failing_opener)?;
    let clocks = clocks_of(alloc, given)?;
    let inboxes = inboxes_of(alloc, given)?;
    let doors = doors_of(alloc, given)?;
    Ok(MemOpener::new(alloc, doors, inboxes, clocks, failing))
}
