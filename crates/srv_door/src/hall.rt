//! The links of a door that are out.
ghost use Rattle.std.specs.Prelude.{◌≡◌, [], if◌then◌else◌};
ghost use Rattle.slab.specs.Slab.{SameValues, slab_len};
ghost use Rattle.dev_traits.specs.Cause.{one_more};
ghost use Rattle.srv_door.specs.DoorTurns.{is_short};

use crate::door_report::{DoorEnd, DoorReport};
use crate::kept::Kept;
use slab::Slab;
use std::alloc::Global;
use web_session::{End, Session};

/// The links of a door that are out, each under a key, and how many were given back.
#[derive(Drop)]
pub(crate) struct Hall<L> {
    pub links: Slab<Kept<L>>,
    /// A session that a link left behind, for the room that it has.
    pub spare: Option<Session>,
    /// How many links were given back. It stands still at its greatest number.
    pub served: u64,
    /// In how many of their turns memory ran out. It stands still at its greatest number.
    pub short: u64,
}

// Whether memory ran out in a turn that ended so.
fn is_short(end: Option<End>) -> bool
    ensures { result ≡ is_short end }
{
    matches!(end, None | Some(End::NoMemory))
}

/// Keeps the session of a link that has ended, for the room that it has, unless that link was the last one out.
pub(crate) fn leave_behind(spare: &mut Option<Session>, session: Session, is_last: bool) {
    if is_last {
        drop(session);
        drop(spare.take());
    } else {
        drop(spare.replace(session));
    }
}

/// Gives back the room for links where none is out.
pub(crate) fn give_back<L: Drop>(links: &mut Slab<Kept<L>>)
    ensures values { SameValues links.old links.new }
    ensures len { slab_len links.new ≡ slab_len links.old }
{
    if links.is_empty() {
        links.shrink_to_fit();
    }
}

impl<L> Hall<L> {
    pub fn new(alloc: Global) -> Hall<L>
        ensures links { result.links.slots ≡ [] }
        ensures counts { (result.served ≡ 0) × (result.short ≡ 0) }
    {
        Hall {
            links: Slab::new(alloc),
            spare: None,
            served: 0,
            short: 0,
        }
    }

    /// Counts a turn that ended so. `None` where memory ran out before its link was served.
    pub fn count(&mut self, end: Option<End>)
        ensures links { self.new.links ≡ self.old.links }
        ensures served { self.new.served ≡ one_more self.old.served }
        ensures short { self.new.short ≡ (if is_short end then one_more self.old.short else self.old.short) }
    {
        self.served = self.served.saturating_add(1);
        if is_short(end) {
            self.short = self.short.saturating_add(1);
        }
    }

    /// The report at the end.
    pub fn report(&self, end: DoorEnd) -> DoorReport
        ensures { result ≡ record { served = self.now.served; short = self.now.short; end = end } }
    {
        DoorReport {
            served: self.served,
            short: self.short,
            end,
        }
    }
}
