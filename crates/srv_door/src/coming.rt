//! A link that comes through a door.
ghost use Rattle.std.specs.Prelude.{◌≡◌, ◌++◌, ℕ, IfOk, IfSome, OnErr, OnOk, length, Option, Some};
ghost use Rattle.slab.specs.Slab.{HasRoomFor};
ghost use Rattle.dev_traits.specs.Door.{Doorway, IsFresh, after_coming, first_of};
ghost use Rattle.dev_traits.specs.declared.door.Coming.TheVariants.{Came};
ghost use Rattle.pub_look.specs.History.{MayHaveLooked};
ghost use Rattle.web_session.specs.State.{fresh};
ghost use Rattle.dap_reply.specs.Collections.{Views};
ghost use Rattle.srv_door.specs.AtDoor.{AtDoor, IsOutSome};
ghost use Rattle.srv_conn.specs.Out.{first_looks, AreRevisions};
ghost use Rattle.srv_conn.specs.Sight.{AreBehind};

use crate::hall::Hall;
use crate::kept::Kept;
use dev_traits::Door;
use fm_base::NoMemory;
use slab::Slab;
use srv_action::Doing;
use srv_conn::{Connection, Looks, Revisions, glance_at_all};
use std::alloc::Global;
use web_session::Session;

// A session, and room for one connection more.
fn seat<L>(alloc: Global, links: &mut Slab<Kept<L>>) -> Result<Session, NoMemory>
    ensures session { IfOk result (λ session. session ≡ fresh) }
    ensures room { OnOk result (HasRoomFor links.new 1) }
    ensures links { links.new ≡ record links.old { capacity = links.new.capacity } }
{
    let Ok(()) = links.reserve(1) else {
        return Err(NoMemory);
    };
    Session::new(alloc)
}

// A session for a link that came, and the number of operations that one look sees of each collection. Room for its
// connection is made first.
fn welcome<L, K: Looks>(
    alloc: Global,
    looks: &mut K,
    links: &mut Slab<Kept<L>>,
    sites: &K::Sites,
) -> Result<(Session, Revisions), NoMemory>
    requires fits { K.fits (K.them looks.old) sites.now }
    ensures session { IfOk result (λ found. found.0 ≡ fresh) }
    ensures revisions { IfOk result (λ found. AreRevisions (K.them looks.old) found.1 (K.views looks.new).seen) }
    ensures room { OnOk result (HasRoomFor links.new 1) }
    ensures links { links.new ≡ record links.old { capacity = links.new.capacity } }
    ensures looked { OnOk result ((number : ℕ) → (K.views looks.new).looks number
        ≡ (K.views looks.old).looks number ++ first_looks (K.them looks.old).count (K.views looks.new).seen number) }
    ensures err { OnErr result ((number : ℕ) → MayHaveLooked ((K.views looks.old).looks number)
        (length ((K.views looks.new).seen number)) ((K.views looks.new).looks number)) }
    ensures later { AreBehind (K.them looks.old) (K.views looks.old).seen (K.views looks.new).seen }
    ensures same { K.them looks.new ≡ K.them looks.old }
{
    match seat(alloc, links) {
        Ok(session) => match glance_at_all(alloc, looks, sites) {
            Ok(revisions) => Ok((session, revisions)),
            Err(memory) => {
                drop(session);
                Err(memory)
            }
        },
        Err(memory) => Err(memory),
    }
}

/// Takes in a link that came through a door, or gives it back where there is no memory for it. Returns its key where it
/// is out.
pub(crate) fn admit<D: Door, K: Looks>(
    alloc: Global,
    looks: &mut K,
    door: &mut D,
    hall: &mut Hall<D::L>,
    link: D::L,
    sites: &K::Sites,
) -> Option<usize>
    requires fits { K.fits (K.them looks.old) sites.now }
    requires out { IfSome (D.shown door.old).held IsOutSome }
    requires fresh { IsFresh (D.L.shown link) }
    ensures at { (first before : Option (Doorway D.L)) (views : Views)
        → AtDoor D.L.shown (K.them looks.old) first before views
        (K.views looks.old) hall.old
        → IfSome before (λ doorway. first_of doorway.left ≡ Some link)
        → (D.shown door.old).held ≡ after_coming (Came link) before
        → AtDoor D.L.shown (K.them looks.old) first (D.shown door.new).held views
        (K.views looks.new) hall.new }
    ensures faults { (D.shown door.new).faults ≡ (D.shown door.old).faults }
    ensures same { K.them looks.new ≡ K.them looks.old }
{
    let key = hall.links.vacant_key();
    match welcome(alloc, looks, &mut hall.links, sites) {
        Ok((session, revisions)) => {
            let connection = Connection {
                link,
                session,
                doing: Doing::Reading,
                revisions,
            };
            let kept = Kept::new(alloc, connection, &mut hall.spare);
            let taken = hall.links.insert_reserved(kept);
            Some(taken)
        }
        Err(NoMemory) => {
            door.done(key, link);
            hall.count(None);
            None
        }
    }
}
