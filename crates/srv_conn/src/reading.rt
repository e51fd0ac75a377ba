//! Reading over a link that blocks.
ghost use Rattle.std.specs.Prelude.{◌<◌, length, IfErr, IfOk};
ghost use Rattle.dap_reply.specs.Served.{IsAtRest};
ghost use Rattle.srv_conn.specs.Turn.{Finds, FindsNone};

use dev_traits::Link;
use srv_action::{Acted, read};
use web_session::{Asked, End, Session};

/// Reads over a link that blocks until the session asks for a reply. Returns its question, or its end.
pub(crate) fn next_asked<L: Link>(
    link: &mut L,
    session: &mut Session,
    room: &mut [u8],
) -> Result<Asked, End>
    requires rests { IsAtRest session.old }
    requires room { 0 < length room.old }
    requires blocks { L.blocks }
    ensures found { IfOk result (Finds (L.shown link.old) (L.shown link.new) session.old session.new) }
    ensures none { IfErr result (FindsNone (L.shown link.old) (L.shown link.new) session.old session.new) }
{
    'asks: loop {
        match read(link, session, room) {
            Acted::Moved => {}
            Acted::Asks(asked) => return Ok(asked),
            Acted::Ended(end) => return Err(end),
            _ => unreachable!(),
        }
    }
}
