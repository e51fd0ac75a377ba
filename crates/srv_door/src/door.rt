//! Serving a door.
ghost use Rattle.std.specs.Prelude.{◌≡◌};
ghost use Rattle.srv_door.specs.AtDoor.{end_of, failed_by};
ghost use Rattle.srv_door.specs.DoorTurns.{EndsDoor, ServesEach, ServesEachMany};

use crate::door_next::{Next, Station, serve_next};
use crate::door_report::{DoorEnd, DoorReport};
use crate::hall::Hall;
use dev_traits::{Door, Gate};
use fm_model::Site;
use pub_look::Look;
use srv_conn::{Looks, ROOM};
use std::alloc::Global;
use std::sync::Wait;

// Whether a call of a door has failed, after this came next.
fn failed_by(has_failed: bool, next: Next) -> bool
    ensures { result ≡ failed_by has_failed next }
{
    match next {
        Next::Failed => true,
        Next::Turn | Next::Closed => has_failed,
    }
}

// Why serving a door stops, if it does, after this came next.
fn end_of(has_failed: bool, next: Next, is_empty: bool) -> Option<DoorEnd>
    ensures { result ≡ end_of has_failed next is_empty }
{
    if !is_empty {
        return None;
    }
    if has_failed {
        return Some(DoorEnd::DoorFault);
    }
    match next {
        Next::Closed => Some(DoorEnd::Closed),
        Next::Turn => None,
        Next::Failed => None,
    }
}

/// Serves the links of a door, many at once, until it closes, or has failed and none is out. Each is served from a
/// fresh session, for at most 10,000 replies, over what was seen when it came and what is seen from then on, and the
/// door gets it back. A link for which memory ran out is counted, and the others are served. The gate is passed, with
/// the door's number, as each link comes and once it was given back.
pub fn serve_door<R: Wait, D: Door, K: Look, G: Gate>(
    rt: &R,
    alloc: Global,
    look: &mut K,
    door: &mut D,
    number: u32,
    gate: &G,
    site: &Site,
) -> DoorReport
    requires { site.now ≡ (K.proto look.old).site }
    ensures serves { ServesEach D.L.shown (K.proto look.old) (K.still look.old)
        (D.shown door.old).held (D.shown door.new).held
        (record { seen = K.log look.old; looks = K.looks look.old })
        (record { seen = K.log look.new; looks = K.looks look.new })
        result.served result.short }
    ensures end { EndsDoor (D.shown door.old) (D.shown door.new) result.end }
    ensures same_proto { K.proto look.new ≡ K.proto look.old }
    ensures same_still { K.still look.new ≡ K.still look.old }
{
    serve_door_looks(rt, alloc, look, door, number, gate, site)
}

/// The same over several collections, each request from the one that it is for.
pub fn serve_door_looks<R: Wait, D: Door, K: Looks, G: Gate>(
    rt: &R,
    alloc: Global,
    looks: &mut K,
    door: &mut D,
    number: u32,
    gate: &G,
    sites: &K::Sites,
) -> DoorReport
    requires fits { K.fits (K.them looks.old) sites.now }
    ensures serves { ServesEachMany D.L.shown (K.them looks.old)
        (D.shown door.old).held (D.shown door.new).held (K.views looks.old) (K.views looks.new)
        result.served result.short }
    ensures end { EndsDoor (D.shown door.old) (D.shown door.new) result.end }
    ensures same { K.them looks.new ≡ K.them looks.old }
{
    let station = Station {
        sites,
        gate,
        number,
    };
    let mut hall = Hall::new(alloc);
    let mut room = [0; ROOM];
    let mut has_failed = false;
    for _ in rt.forever() {
        let next = serve_next(alloc, looks, door, &mut hall, &station, &mut room);
        has_failed = failed_by(has_failed, next);
        if let Some(end) = end_of(has_failed, next, hall.links.is_empty()) {
            let report = hall.report(end);
            drop(hall);
            return report;
        }
    }
    unreachable!()
}
