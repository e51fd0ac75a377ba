//! A connection that goes on without waiting.
ghost use Rattle.std.specs.Prelude.{◌≡◌, ◌<◌, IfNone, None, length};
ghost use Rattle.srv_conn.specs.Sight.{AreBehind};
ghost use Rattle.web_session.specs.declared.phase.Phase.TheVariants.{Asking};
ghost use Rattle.srv_action.specs.Acts.{IsReading, IsReady};
ghost use Rattle.srv_conn.specs.Out.{end_in, IsOut, Own, WentOn};
ghost use Rattle.srv_conn.specs.ServesMany.{Point};

use crate::answer::{Request, begin, choice_of};
use crate::connection::Connection;
use crate::looks::Looks;
use dev_traits::Link;
use srv_action::{Acted, PIECE, act};
use std::alloc::Global;
use web_session::{Asked, End};

// The most bytes of replies in a turn, so that no link keeps others from going on: whole pieces.
const MOST_SENT: usize = 16 * PIECE;

// The most actions in a turn.
const MOST_ACTIONS: u32 = 256;

// What one action of a connection did.
#[derive(Clone, Copy)]
pub(crate) enum Stepped {
    // Something, and this number of bytes of a reply was sent.
    Went(usize),
    // Nothing: the call would wait.
    Waits,
    // The session has ended.
    Ended(End),
}

// Begins the reply to what a connection asks, or has it leave.
fn answer_asked<L: Link, K: Looks>(
    alloc: Global,
    looks: &mut K,
    connection: &mut Connection<L>,
    asked: Asked,
    sites: &K::Sites,
)
    requires fits { K.fits (K.them looks.old) sites.now }
    requires reading { IsReading connection.old.doing }
    requires asking { connection.old.session.phase ≡ Asking asked }
    ensures went { (start : Point) (own : Own)
        → IsOut L.shown (K.them looks.old) start (K.views looks.old).seen own connection.old
        → WentOn L.shown (K.them looks.old) start own connection.new
        (K.views looks.old)
        (K.views looks.new) None }
    ensures ready { IsReady connection.new.doing connection.new.session }
    ensures later { AreBehind (K.them looks.old) (K.views looks.old).seen (K.views looks.new).seen }
    ensures same { K.them looks.new ≡ K.them looks.old }
{
    let number = choice_of(looks, sites, &connection.session, asked);
    let request = Request {
        asked,
        number,
        site: looks.site(sites, number),
        revision: connection.revisions.of(number),
    };
    match begin(
        alloc,
        looks,
        &mut connection.session,
        &mut connection.doing,
        &request,
    ) {
        Ok(revision) => connection.revisions.set(number, revision),
        Err(_) => {}
    }
}

// Does the next action of a connection, which sends at most `limit` bytes of a reply.
fn step<L: Link, K: Looks>(
    alloc: Global,
    looks: &mut K,
    connection: &mut Connection<L>,
    sites: &K::Sites,
    room: &mut [u8],
    limit: usize,
) -> Stepped
    requires fits { K.fits (K.them looks.old) sites.now }
    requires ready { IsReady connection.old.doing connection.old.session }
    requires room { (0 < length room.old) × (0 < limit) }
    ensures went { (start : Point) (own : Own)
        → IsOut L.shown (K.them looks.old) start (K.views looks.old).seen own connection.old
        → WentOn L.shown (K.them looks.old) start own connection.new
        (K.views looks.old)
        (K.views looks.new) (end_in result) }
    ensures ready { IfNone (end_in result) (IsReady connection.new.doing connection.new.session) }
    ensures later { AreBehind (K.them looks.old) (K.views looks.old).seen (K.views looks.new).seen }
    ensures same { K.them looks.new ≡ K.them looks.old }
{
    match act(
        &mut connection.link,
        &mut connection.session,
        &mut connection.doing,
        room,
        limit,
    ) {
        Acted::Moved => Stepped::Went(0),
        Acted::Finished => Stepped::Went(0),
        Acted::Sent { count, .. } => Stepped::Went(count),
        Acted::Asks(asked) => {
            answer_asked(alloc, looks, connection, asked, sites);
            Stepped::Went(0)
        }
        Acted::Later => Stepped::Waits,
        Acted::Ended(end) => Stepped::Ended(end),
    }
}

/// Has a connection go on until a call would wait, or it has had enough for a turn. Returns its end, if it has ended.
pub fn go_on<L: Link, K: Looks>(
    alloc: Global,
    looks: &mut K,
    connection: &mut Connection<L>,
    sites: &K::Sites,
    room: &mut [u8],
) -> Option<End>
    requires fits { K.fits (K.them looks.old) sites.now }
    requires ready { IsReady connection.old.doing connection.old.session }
    requires room { 0 < length room.old }
    ensures went { (start : Point) (own : Own)
        → IsOut L.shown (K.them looks.old) start (K.views looks.old).seen own connection.old
        → WentOn L.shown (K.them looks.old) start own connection.new
        (K.views looks.old)
        (K.views looks.new) result }
    ensures later { AreBehind (K.them looks.old) (K.views looks.old).seen (K.views looks.new).seen }
    ensures same { K.them looks.new ≡ K.them looks.old }
{
    let mut left = MOST_SENT;
    'acts: for _ in 0..MOST_ACTIONS {
        if left == 0 {
            return None;
        }
        match step(alloc, looks, connection, sites, room, left) {
            Stepped::Went(count) => left = left.saturating_sub(count),
            Stepped::Waits => return None,
            Stepped::Ended(end) => return Some(end),
        }
    }
    None
}
