//! A link of a door that goes on.
ghost use Rattle.std.specs.Prelude.{◌≡◌, ◌<◌, IfSome, length, Option};
ghost use Rattle.slab.specs.Slab.{ContainsKey};
ghost use Rattle.dev_traits.specs.Door.{Doorway};
ghost use Rattle.srv_door.specs.AtDoor.{AreReady, AtDoor, IsOutSome};
ghost use Rattle.dap_reply.specs.Collections.{Views};

use crate::hall::{Hall, give_back, leave_behind};
use crate::kept::Kept;
use dev_traits::Door;
use srv_conn::{Connection, Looks, go_on};
use std::alloc::Global;

/// Has the link of a key go on, if there is one, and gives it back where its session has ended. Returns whether it did.
pub(crate) fn go_on_at<D: Door, K: Looks>(
    alloc: Global,
    looks: &mut K,
    door: &mut D,
    hall: &mut Hall<D::L>,
    key: usize,
    sites: &K::Sites,
    room: &mut [u8],
) -> bool
    requires fits { K.fits (K.them looks.old) sites.now }
    requires room { 0 < length room.old }
    requires ready { AreReady hall.old.links }
    requires out { ContainsKey hall.old.links key → IfSome (D.shown door.old).held IsOutSome }
    ensures at { (first : Option (Doorway D.L)) (views : Views)
        → AtDoor D.L.shown (K.them looks.old) first (D.shown door.old).held views
        (K.views looks.old) hall.old
        → AtDoor D.L.shown (K.them looks.old) first (D.shown door.new).held views
        (K.views looks.new) hall.new }
    ensures faults { (D.shown door.new).faults ≡ (D.shown door.old).faults }
    ensures same { K.them looks.new ≡ K.them looks.old }
{
    if !hall.links.contains(key) {
        return false;
    }
    let kept = hall.links.remove(key);
    let mut connection = match kept.woken(alloc, &mut hall.spare) {
        Ok(connection) => connection,
        Err(kept) => {
            let rested = kept.rested(door, key);
            hall.links.insert_reserved(rested);
            return false;
        }
    };
    match go_on(alloc, looks, &mut connection, sites, room) {
        None => {
            door.rest(key, &mut connection.link);
            let kept = Kept::new(alloc, connection, &mut hall.spare);
            hall.links.insert_reserved(kept);
            false
        }
        Some(end) => {
            let Connection {
                link,
                session,
                doing,
                ..
            } = connection;
            drop(doing);
            let is_last = hall.links.is_empty();
            leave_behind(&mut hall.spare, session, is_last);
            give_back(&mut hall.links);
            door.done(key, link);
            hall.count(Some(end));
            true
        }
    }
}
