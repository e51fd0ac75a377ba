//! Reading from a link.
ghost use Rattle.std.specs.Prelude.{◌≡◌, ◌≢◌, ◌<◌, length, IfErr, IfOk};
ghost use Rattle.web_session.specs.declared.action.Action.TheVariants.{Read};
ghost use Rattle.web_session.specs.State.{action_of};
ghost use Rattle.dap_reply.specs.Served.{IsAtRest};
ghost use Rattle.srv_action.specs.Acts.{Reads};

use crate::acting::Acted;
use dev_traits::{Link, Taken};
use web_session::{Action, Asked, End, Event, Session};

// Takes the next bytes, at most `count`, into the session.
fn take_some<L: Link>(link: &mut L, session: &mut Session, room: &mut [u8], count: usize) -> Acted
    requires rests { IsAtRest session.old }
    requires reads { action_of session.old ≡ Read count }
    requires some { 0 < count }
    requires room { 0 < length room.old }
    ensures reads { Reads (L.shown link.old) (L.shown link.new) session.old session.new result }
    ensures at_once { L.blocks → result ≢ Acted.Later }
{
    let (front, _) = room.split_at_mut(count.min(room.len()));
    match link.take(front) {
        Ok(Taken::End) => match session.on(Event::EndOfInput) {
            Action::Close(end) => Acted::Ended(end),
            _ => unreachable!(),
        },
        Ok(Taken::Bytes(read)) => {
            let (bytes, _) = front.split_at(read);
            session.on(Event::Bytes(bytes));
            Acted::Moved
        }
        Ok(Taken::Later) => Acted::Later,
        Err(_) => {
            session.on(Event::Fault);
            Acted::Ended(End::LinkFault)
        }
    }
}

/// Takes bytes that the session waits for, unless it asks for a reply.
pub fn read<L: Link>(link: &mut L, session: &mut Session, room: &mut [u8]) -> Acted
    requires rests { IsAtRest session.old }
    requires room { 0 < length room.old }
    ensures reads { Reads (L.shown link.old) (L.shown link.new) session.old session.new result }
    ensures at_once { L.blocks → result ≢ Acted.Later }
{
    match session.on(Event::Start) {
        Action::Read(count) => take_some(link, session, room, count),
        Action::Ask(asked) => Acted::Asks(asked),
        _ => unreachable!(),
    }
}
