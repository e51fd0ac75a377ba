//! One action of a connection: one call of its link, or none where its session asks for a reply.
ghost use Rattle.std.specs.Prelude.{◌≡◌, ◌≢◌, ◌<◌, length};
ghost use Rattle.srv_action.specs.Acts.{acted_by, settled, stand, Acts, ActsOn, IsReady};

use crate::delivery::send;
use crate::doing::Doing;
use crate::farewell::part;
use crate::reading::read;
use dev_traits::Link;
use std::mem::replace;
use web_session::{Asked, End, Session};

/// What one action of a connection did.
#[derive(Clone, Copy)]
pub enum Acted {
    /// Bytes were taken, or bytes of the text were sent that says that memory ran out.
    Moved,
    /// Nothing: the session asks for a reply.
    Asks(Asked),
    /// Some bytes of a reply were sent, which has gone so far by now.
    Sent { count: usize, total: u64 },
    /// A reply is whole, and the session goes on.
    Finished,
    /// Nothing: the call would wait.
    Later,
    /// The session has ended.
    Ended(End),
}

/// What an action did with which a reply was whole, by the end of the session.
pub(crate) fn acted_by(end: Option<End>) -> Acted
    ensures { result ≡ acted_by end }
{
    match end {
        Some(end) => Acted::Ended(end),
        None => Acted::Finished,
    }
}

// Does the next action, which leaves a reply that is whole where it was.
fn act_on<L: Link>(
    link: &mut L,
    session: &mut Session,
    doing: &mut Doing,
    room: &mut [u8],
    limit: usize,
) -> Acted
    requires ready { IsReady doing.old session.old }
    requires room { (0 < length room.old) × (0 < limit) }
    ensures acts { ActsOn (stand (L.shown link.old) session.old doing.old)
        (stand (L.shown link.new) session.new doing.new) result }
    ensures at_once { L.blocks → result ≢ Acted.Later }
{
    match doing {
        Doing::Reading => read(link, session, room),
        Doing::Replying { plan, sent } => send(link, session, plan, sent, room, limit),
        Doing::Leaving { sent } => part(link, sent),
    }
}

// What is being done after an action: once a reply is whole, requests are read.
fn settle(doing: &mut Doing, acted: Acted)
    ensures { doing.new ≡ settled doing.old acted }
{
    match acted {
        Acted::Finished => drop(replace(doing, Doing::Reading)),
        Acted::Moved | Acted::Asks(_) | Acted::Sent { .. } | Acted::Later | Acted::Ended(_) => {}
    }
}

/// Does the next action of a connection. Of a reply at most `limit` bytes are sent. After one that is whole, requests
/// are read.
pub fn act<L: Link>(
    link: &mut L,
    session: &mut Session,
    doing: &mut Doing,
    room: &mut [u8],
    limit: usize,
) -> Acted
    requires ready { IsReady doing.old session.old }
    requires room { (0 < length room.old) × (0 < limit) }
    ensures acts { Acts (stand (L.shown link.old) session.old doing.old)
        (stand (L.shown link.new) session.new doing.new) result }
    ensures at_once { L.blocks → result ≢ Acted.Later }
{
    let acted = act_on(link, session, doing, room, limit);
    settle(doing, acted);
    acted
}
