//! The reply where memory runs out.
ghost use Rattle.std.specs.Prelude.{◌≡◌, ◌≢◌, ◌≤◌, drop, length};
ghost use Rattle.web_session.specs.declared.action.End.TheVariants.{NoMemory};
ghost use Rattle.web_session.specs.declared.phase.Phase.TheVariants.{Ended};
ghost use Rattle.dap_reply.specs.Head.{no_memory_reply};
ghost use Rattle.srv_action.specs.Acts.{starts_leaving, IsAsking, Parts};

use crate::acting::Acted;
use crate::doing::Doing;
use dev_traits::{Link, Sent};
use std::mem::replace;
use web_session::{End, Event, Session};

// The reply, which is a connection's last.
const NO_MEMORY: &[u8] =
    b"HTTP/1.1 503 Service Unavailable\r\nContent-Length: 0\r\nConnection: close\r\n\r\n";

/// Ends a session that asks for a reply since memory ran out. The reply that says so is sent from now on.
pub fn leave(session: &mut Session, doing: &mut Doing)
    requires { IsAsking session.old }
    ensures doing { doing.new ≡ starts_leaving }
    ensures ended { session.new.phase ≡ Ended NoMemory }
    ensures before { session.new.before ≡ session.old.before }
{
    session.on(Event::NoAnswer);
    drop(replace(doing, Doing::Leaving { sent: 0 }));
}

// The bytes of the reply from an offset.
#[tactic(auto, unfolding(dap_reply::specs::Head::no_memory_reply, dap_reply::specs::Head::head_line))]
fn text_from(said: usize) -> &'static [u8]
    requires { said ≤ length no_memory_reply }
    ensures { result.now ≡ drop said no_memory_reply }
{
    let (_, rest) = NO_MEMORY.split_at(said);
    rest
}

/// Sends the next bytes of the reply that says that memory ran out, of which `sent` have gone. A link that fails now is
/// left as one whose memory ran out.
pub(crate) fn part<L: Link>(link: &mut L, sent: &mut usize) -> Acted
    requires { sent.old ≤ length no_memory_reply }
    ensures parts { Parts (L.shown link.old) (L.shown link.new) sent.old sent.new result }
    ensures at_once { L.blocks → result ≢ Acted.Later }
{
    let rest = text_from(*sent);
    if rest.is_empty() {
        return Acted::Ended(End::NoMemory);
    }
    match link.put(rest) {
        Ok(Sent::Bytes(count)) => {
            *sent += count;
            Acted::Moved
        }
        Ok(Sent::Later) => Acted::Later,
        Err(_) => Acted::Ended(End::NoMemory),
    }
}
