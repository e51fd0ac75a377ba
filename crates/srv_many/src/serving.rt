//! Serving links and doors over several collections.
ghost use Rattle.std.specs.Prelude.{◌≡◌, ◌≤◌, [], length};
ghost use Rattle.dap_reply.specs.Served.{IsAtRest};
ghost use Rattle.srv_door.specs.DoorTurns.{EndsDoor, ServesEachMany};
ghost use Rattle.srv_conn.specs.ServesMany.{point_of, ServesMany};
ghost use Rattle.srv_many.specs.Several.{collections_with, row_with, views_with};

use crate::row::Row;
use crate::several::Several;
use dap_reply::Stop;
use dev_traits::{Door, Gate, Link};
use fm_base::{Arc, List};
use fm_model::Proto;
use pub_look::Look;
use srv_conn::{Trail, serve_looks};
use srv_door::{DoorReport, serve_door_looks};
use std::alloc::Global;
use std::sync::Wait;
use web_session::Session;

/// Serves a link as `serve_link` does, each request from the first collection whose root its path is below, or else
/// from the first of all. Each reply is over its own collection, and shows nothing of the others.
pub fn serve_many<L: Link, K: Look, F: Row>(
    alloc: Global,
    looks: &mut Several<K, F>,
    link: &mut L,
    session: &mut Session,
    protos: &List<Arc<Proto>>,
    most: u32,
) -> (Stop, Trail)
    requires protos { protos.now ≡ (row_with K.proto K.still K.log K.looks F.known looks.old).protos }
    requires few { length protos.now ≤ 8 }
    requires rests { IsAtRest session.old }
    requires blocks { L.blocks }
    ensures serves { ServesMany (collections_with K.proto K.still K.log K.looks F.known looks.old)
        (point_of (L.shown link.old) (views_with K.proto K.still K.log K.looks F.known looks.old) session.old [])
        (point_of (L.shown link.new) (views_with K.proto K.still K.log K.looks F.known looks.new) session.new result.1)
        most result.0 }

    // With `most` 0 nothing is touched.
    ensures nothing { most ≡ 0 → result ≡ (Stop.Enough, []) }

    // So the session can be handed in again.
    ensures rests { result.0 ≡ Stop.Enough → IsAtRest session.new }
    ensures same { collections_with K.proto K.still K.log K.looks F.known looks.new
        ≡ collections_with K.proto K.still K.log K.looks F.known looks.old }
{
    serve_looks(alloc, looks, link, session, protos, most)
}

/// Serves the links of a door as `serve_door` does, each request from its own collection.
pub fn serve_many_door<R: Wait, D: Door, K: Look, F: Row, G: Gate>(
    rt: &R,
    alloc: Global,
    looks: &mut Several<K, F>,
    door: &mut D,
    number: u32,
    gate: &G,
    protos: &List<Arc<Proto>>,
) -> DoorReport
    requires protos { protos.now ≡ (row_with K.proto K.still K.log K.looks F.known looks.old).protos }
    requires few { length protos.now ≤ 8 }
    ensures serves { ServesEachMany D.L.shown (collections_with K.proto K.still K.log K.looks F.known looks.old)
        (D.shown door.old).held (D.shown door.new).held
        (views_with K.proto K.still K.log K.looks F.known looks.old)
        (views_with K.proto K.still K.log K.looks F.known looks.new) result.served result.short }
    ensures end { EndsDoor (D.shown door.old) (D.shown door.new) result.end }
    ensures same { collections_with K.proto K.still K.log K.looks F.known looks.new
        ≡ collections_with K.proto K.still K.log K.looks F.known looks.old }
{
    serve_door_looks(rt, alloc, looks, door, number, gate, protos)
}
