//! What comes next at a door.
ghost use Rattle.std.specs.Prelude.{◌≡◌, ◌<◌, [], IfSome, length, Option, Some};
ghost use Rattle.slab.specs.Slab.{ContainsKey};
ghost use Rattle.dev_traits.specs.Door.{Doorway, after_coming, first_of};
ghost use Rattle.dev_traits.specs.declared.door.Coming.TheVariants.{Came};
ghost use Rattle.srv_door.specs.AtDoor.{faults_after, AreReady, AtDoor, IsComing, IsOutSome, IsSomeAtDoor};
ghost use Rattle.dap_reply.specs.Collections.{Views};

use crate::coming::admit;
use crate::going::go_on_at;
use crate::hall::Hall;
use dev_traits::{Coming, Door, Gate, Place};
use srv_conn::Looks;
use std::alloc::Global;

/// What doesn't change while a door is served: the sites, the gate, and the number with which the door passes it.
#[derive(Drop)]
pub(crate) struct Station<'a, S, G> {
    pub sites: &'a S,
    pub gate: &'a G,
    pub number: u32,
}

/// What came next at a door.
#[derive(Clone, Copy)]
pub(crate) enum Next {
    /// A link came, or may have gone on.
    Turn,
    /// The door is closed.
    Closed,
    /// The door failed.
    Failed,
}

// Has a link go on, and passes the gate where it was given back.
fn proceed<D: Door, K: Looks, G: Gate>(
    alloc: Global,
    looks: &mut K,
    door: &mut D,
    hall: &mut Hall<D::L>,
    key: usize,
    station: &Station<'_, K::Sites, G>,
    room: &mut [u8],
)
    requires fits { K.fits (K.them looks.old) station.now.sites.now }
    requires room { 0 < length room.old }
    requires ready { AreReady hall.old.links }
    requires out { ContainsKey hall.old.links key → IfSome (D.shown door.old).held IsOutSome }
    ensures at { (first : Option (Doorway D.L)) (views : Views)
        → AtDoor D.L.shown (K.them looks.old) first (D.shown door.old).held views
        (K.views looks.old) hall.old
        → AtDoor D.L.shown (K.them looks.old) first (D.shown door.new).held views
        (K.views looks.new) hall.new }
    ensures faults { (D.shown door.new).faults ≡ (D.shown door.old).faults }
    ensures same { K.them looks.new ≡ K.them looks.old }
{
    if go_on_at(alloc, looks, door, hall, key, station.sites, room) {
        station.gate.pass(Place::Finished(station.number));
    }
}

// Takes in a link that came, and has it go on at once. The gate is passed before and, where it was given back, after
// that.
fn receive<D: Door, K: Looks, G: Gate>(
    alloc: Global,
    looks: &mut K,
    door: &mut D,
    hall: &mut Hall<D::L>,
    link: D::L,
    station: &Station<'_, K::Sites, G>,
    room: &mut [u8],
)
    requires fits { K.fits (K.them looks.old) station.now.sites.now }
    requires room { 0 < length room.old }
    requires coming { IsComing D.L.shown (K.them looks.old) (D.shown door.old).held
        (K.views looks.old) hall.old link }
    ensures at { (first before : Option (Doorway D.L)) (views : Views)
        → AtDoor D.L.shown (K.them looks.old) first before views
        (K.views looks.old) hall.old
        → IfSome before (λ doorway. first_of doorway.left ≡ Some link)
        → (D.shown door.old).held ≡ after_coming (Came link) before
        → AtDoor D.L.shown (K.them looks.old) first (D.shown door.new).held views
        (K.views looks.new) hall.new }
    ensures faults { (D.shown door.new).faults ≡ (D.shown door.old).faults }
    ensures same { K.them looks.new ≡ K.them looks.old }
{
    station.gate.pass(Place::Accepted(station.number));
    match admit(alloc, looks, door, hall, link, station.sites) {
        Some(key) => proceed(alloc, looks, door, hall, key, station, room),
        None => station.gate.pass(Place::Finished(station.number)),
    }
}

/// Waits for what comes next at a door, and serves it.
pub(crate) fn serve_next<D: Door, K: Looks, G: Gate>(
    alloc: Global,
    looks: &mut K,
    door: &mut D,
    hall: &mut Hall<D::L>,
    station: &Station<'_, K::Sites, G>,
    room: &mut [u8],
) -> Next
    requires fits { K.fits (K.them looks.old) station.now.sites.now }
    requires room { 0 < length room.old }
    requires at { IsSomeAtDoor D.L.shown (K.them looks.old) (D.shown door.old).held
        (K.views looks.old) hall.old }
    ensures at { (first : Option (Doorway D.L)) (views : Views)
        → AtDoor D.L.shown (K.them looks.old) first (D.shown door.old).held views
        (K.views looks.old) hall.old
        → AtDoor D.L.shown (K.them looks.old) first (D.shown door.new).held views
        (K.views looks.new) hall.new }
    ensures faults { (D.shown door.new).faults ≡ faults_after result (D.shown door.old).faults }
    ensures closed { result ≡ Next.Closed → IfSome (D.shown door.new).held (λ doorway. doorway.left ≡ []) }
    ensures same { K.them looks.new ≡ K.them looks.old }
{
    match door.next(hall.links.vacant_key()) {
        Ok(Coming::Came(link)) => {
            receive(alloc, looks, door, hall, link, station, room);
            Next::Turn
        }
        Ok(Coming::Ready(key)) => {
            proceed(alloc, looks, door, hall, key, station, room);
            Next::Turn
        }
        Ok(Coming::Closed) => Next::Closed,
        Err(_) => Next::Failed,
    }
}
