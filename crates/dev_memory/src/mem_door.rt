//! A door in memory.
ghost use Rattle.std.specs.Prelude.{◌≡◌, ◌+◌, ◌<◌, ◌≤◌, [], All, IfNone, IfOk, IfSome, None, Some, false, length};
ghost use Rattle.std.specs.Prelude.{vec_capacity, vec_len};
ghost use Rattle.dev_traits.specs.Door.{IfCame, IsFresh, MayCome, after_coming, fresh_doorway};
ghost use Rattle.dev_traits.specs.Opener.{door_asked};

use crate::calls::Calls;
use crate::paused_link::PausedLink;
use dev_traits::{Coming, Door, DoorAsked, Failed, Link};
use fm_base::{List, NoMemory};
use std::alloc::Global;

/// What a door in memory says next.
#[derive(Clone, Copy, PartialEq, Eq)]
pub enum DoorEvent {
    /// The next link comes.
    Comes,
    /// The link of this key may go on, whether there is one or not.
    Ready(usize),
}

/// A door in memory, with the links that are to come and room for those that are given back. It says what its script
/// says. Without one, or where that can't be, the link goes on that came first of those that are out, and where none is
/// out the next one comes.
#[derive(Drop)]
pub struct MemDoor {
    asked: Option<DoorAsked>,
    left: List<PausedLink>,
    // of the links that are out, in the order in which they came
    keys: Vec<usize>,
    given: Vec<PausedLink>,
    events: List<DoorEvent>,
    event: usize,
    calls: Calls,
    ghost key_room: { length left + vec_len keys ≤ vec_capacity keys },
    ghost room: { length left + vec_len keys + vec_len given ≤ vec_capacity given },
    ghost fresh: { All (λ link. IsFresh (⟦<PausedLink as Link>⟧.shown link)) left },
}

impl MemDoor {
    /// A door with these links to come, which weren't used before, and no script. The calls of `next` with these
    /// numbers, counted from 1, fail.
    pub fn new(
        alloc: Global,
        links: List<PausedLink>,
        failing: List<u64>,
    ) -> Result<MemDoor, NoMemory>
        requires fresh { All (λ link. IsFresh (⟦<PausedLink as Link>⟧.shown link)) links }
        ensures shown { IfOk result (λ door.
            ⟦<MemDoor as Door>⟧.shown door ≡ record { held = Some (fresh_doorway links); faults = 0 }) }
    {
        let keys = Vec::with_capacity(alloc, links.len())?;
        let given = Vec::with_capacity(alloc, links.len())?;
        Ok(MemDoor {
            asked: None,
            left: links,
            keys,
            given,
            events: List::new(alloc),
            event: 0,
            calls: Calls::new(failing),
        })
    }

    /// The same door, with a script of what it says.
    pub fn with_events(self, events: List<DoorEvent>) -> MemDoor
        ensures { ⟦<MemDoor as Door>⟧.shown result ≡ ⟦<MemDoor as Door>⟧.shown self }
    {
        let mut door = self;
        door.events = events;
        door
    }

    // The same door, opened with this.
    pub(crate) fn asked_with(self, asked: DoorAsked) -> MemDoor
        ensures { ⟦<MemDoor as Door>⟧.shown result ≡ door_asked asked (⟦<MemDoor as Door>⟧.shown self) }
    {
        let mut door = self;
        door.asked = Some(asked);
        door
    }

    // What comes next, where the call isn't to fail.
    fn coming(&mut self, key: usize) -> Coming<PausedLink>
        ensures next { IfSome (⟦<MemDoor as Door>⟧.shown self.old).held (λ doorway. MayCome doorway result) }
        ensures came { (⟦<MemDoor as Door>⟧.shown self.new).held
            ≡ after_coming result (⟦<MemDoor as Door>⟧.shown self.old).held }
        ensures fresh { IfCame (λ link. IsFresh (⟦<PausedLink as Link>⟧.shown link)) result }
        ensures faults { self.new.calls.faults ≡ self.old.calls.faults }
    {
        let event = next_event(self.events.as_slice(), &mut self.event);
        match key_ready(self.keys.as_slice(), event, !self.left.is_empty()) {
            Some(ready) => Coming::Ready(ready),
            None => self.next_link(key),
        }
    }

    // The next link, or the end, where none is out.
    fn next_link(&mut self, key: usize) -> Coming<PausedLink>
        requires { self.old.left ≡ [] → vec_len self.old.keys ≡ 0 }
        ensures next { IfSome (⟦<MemDoor as Door>⟧.shown self.old).held (λ doorway. MayCome doorway result) }
        ensures came { (⟦<MemDoor as Door>⟧.shown self.new).held
            ≡ after_coming result (⟦<MemDoor as Door>⟧.shown self.old).held }
        ensures fresh { IfCame (λ link. IsFresh (⟦<PausedLink as Link>⟧.shown link)) result }
        ensures faults { self.new.calls.faults ≡ self.old.calls.faults }
    {
        if self.left.is_empty() {
            return Coming::Closed;
        }
        let link = self.left.items.remove(0);
        self.keys.push_reserved(key);
        Coming::Came(link)
    }

    /// The links that were given back.
    pub fn given(&self) -> &[PausedLink]
        ensures { IfSome (⟦<MemDoor as Door>⟧.shown self.now).held (λ doorway. result.now ≡ doorway.given) }
    {
        self.given.as_slice()
    }
}

impl Door for MemDoor {
    type L = PausedLink;

    ghost shown = { λ door. record {
      held = Some (record {
        asked = door.asked;
        left = door.left;
        out = vec_len door.keys;
        given = door.given.items;
      });
      faults = door.calls.faults;
    } };

    fn faults(&self) -> u64 {
        self.calls.faults
    }

    fn next(&mut self, key: usize) -> Result<Coming<PausedLink>, Failed> {
        if self.calls.due() {
            return Err(self.calls.fail());
        }
        Ok(self.coming(key))
    }

    fn rest(&mut self, _key: usize, _link: &mut PausedLink) {}

    fn done(&mut self, key: usize, link: PausedLink) {
        let index = index_of(self.keys.as_slice(), key);
        self.keys.remove(index);
        self.given.push_reserved(link);
    }
}

// The event at an index, which goes on by one.
fn next_event(events: &[DoorEvent], index: &mut usize) -> Option<DoorEvent> {
    let event = events.get(*index).copied();
    *index = index.saturating_add(1);
    event
}

// The key of the link that may go on: that in an event, or else that of the link that came first. There is none where
// no link is out, or the event says that the next one comes and one is left.
fn key_ready(keys: &[usize], event: Option<DoorEvent>, left: bool) -> Option<usize>
    ensures some { IfSome result (λ _. 0 < length keys.now) }
    ensures none { left ≡ false → IfNone result (length keys.now ≡ 0) }
{
    let oldest = *keys.first()?;
    match event {
        Some(DoorEvent::Comes) if left => None,
        Some(DoorEvent::Ready(key)) => Some(key),
        _ => Some(oldest),
    }
}

// Where a key stands. One that is not there counts as the first.
fn index_of(keys: &[usize], key: usize) -> usize
    requires { 0 < length keys.now }
    ensures { result < length keys.now }
{
    keys.iter().position(|one| *one == key).unwrap_or(0)
}
