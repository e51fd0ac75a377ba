//! The bytes of a reply, sent over a link.
ghost use Rattle.std.specs.Prelude.{◌≡◌, ◌≢◌, ◌<◌, ◌≤◌, drop, length, take, IfOk, OnErr, Some};
ghost use Rattle.dev_traits.specs.Cause.{HasCause};
ghost use Rattle.dev_traits.specs.Link.{SendsNow, SendsWithin, after_put, sent_count};
ghost use Rattle.web_session.specs.declared.action.Asked.{Asked as What};
ghost use Rattle.web_session.specs.declared.action.End.TheVariants.{LinkFault};
ghost use Rattle.web_session.specs.declared.phase.Phase.TheVariants.{Asking, Ended};
ghost use Rattle.web_session.specs.State.{end_after, replied};
ghost use Rattle.dap_reply.specs.Parts.{bytes_of};
ghost use Rattle.srv_action.specs.Acts.{IsAsking, Sends};
ghost use Rattle.srv_action.specs.Acts.{end_said};

use crate::acting::{Acted, acted_by};
use dap_reply::Plan;
use dev_traits::{Failed, Link, Sent};
use web_session::{Action, End, Event, Session};

// From this number of bytes on, what stands in a file is sent from where it lies.
const LONG: usize = 8_192;

/// How many bytes of a reply are gathered for one call of a link at most: 45 full packets of Ethernet, or one of the
/// loopback device. A few bytes more would go in a short packet of their own behind each of these.
pub const PIECE: usize = 65_160;

/// The end in an action.
pub(crate) fn end_said(action: Action) -> Option<End>
    ensures { result ≡ end_said action }
{
    match action {
        Action::Close(end) => Some(end),
        Action::Read(_) | Action::Ask(_) | Action::Send { .. } => None,
    }
}

// Reports to a session the number of bytes of a reply that were sent. Fewer than all mean that the link failed. Returns
// the end of the session, if it ends.
fn tell(session: &mut Session, len: u64, sent: u64) -> Option<End>
    requires { sent ≤ len }
    ensures whole { (asked : What) → session.old.phase ≡ Asking asked → sent ≡ len
        → (session.new ≡ replied session.old asked) × (result ≡ end_after asked session.old.before) }
    ensures cut { (asked : What) → session.old.phase ≡ Asking asked → sent < len
        → (session.new.phase ≡ Ended LinkFault) × (result ≡ Some LinkFault) }
{
    session.on(Event::Answer { len });
    let action = if sent < len {
        session.on(Event::Fault)
    } else {
        session.on(Event::Sent(len))
    };
    end_said(action)
}

// Sends the first bytes, at most `limit`.
fn put_front<L: Link>(link: &mut L, bytes: &[u8], limit: usize) -> Result<Sent, Failed>
    requires some { (0 < length bytes.now) × (0 < limit) }
    ensures within { IfOk result (SendsWithin (length bytes.now)) }
    ensures put { IfOk result (λ sent. (L.shown link.new).held
        ≡ after_put (take (sent_count sent) bytes.now) (L.shown link.old).held) }
    ensures at_once { L.blocks → IfOk result SendsNow }
    ensures err { OnErr result ((L.shown link.new).held ≡ (L.shown link.old).held) }
    ensures cause { HasCause (L.shown link.old).faults (L.shown link.new).faults result }
{
    let (front, _) = bytes.split_at(bytes.len().min(limit));
    link.put(front)
}

// Sends the next bytes of a plan, from an offset, at most `limit`. Bytes that stand ready or in a file are sent as they
// lie there, where they are many or all that is left; else the room is filled.
#[tactic(auto, using(crate::proofs::DeliveryLemmas::puts))]
fn put_next<L: Link>(
    link: &mut L,
    plan: &Plan,
    from: u64,
    room: &mut [u8],
    limit: usize,
) -> Result<Sent, Failed>
    requires offset { from < length (bytes_of plan.now) }
    requires room { (0 < length room.old) × (0 < limit) }
    ensures within { IfOk result (SendsWithin (length (drop from (bytes_of plan.now)))) }
    ensures put { IfOk result (λ sent. (L.shown link.new).held
        ≡ after_put (take (sent_count sent) (drop from (bytes_of plan.now))) (L.shown link.old).held) }
    ensures at_once { L.blocks → IfOk result SendsNow }
    ensures err { OnErr result ((L.shown link.new).held ≡ (L.shown link.old).held) }
    ensures cause { HasCause (L.shown link.old).faults (L.shown link.new).faults result }
{
    let lent = plan.lent(from);
    if lent.len() >= LONG || lent.len() as u64 == plan.len() - from {
        return put_front(link, lent, limit);
    }
    let most = PIECE.min(limit).min(room.len());
    let (part, _) = room.split_at_mut(most);
    let count = plan.piece(from, part);
    let (piece, _) = part.split_at(count);
    link.put(piece)
}

/// Sends the next bytes of a reply, of which `sent` have gone. Where all have, the session is told.
pub(crate) fn send<L: Link>(
    link: &mut L,
    session: &mut Session,
    plan: &Plan,
    sent: &mut u64,
    room: &mut [u8],
    limit: usize,
) -> Acted
    requires asking { IsAsking session.old }
    requires within { sent.old ≤ length (bytes_of plan.now) }
    requires room { (0 < length room.old) × (0 < limit) }
    ensures sends { Sends (L.shown link.old) (L.shown link.new) session.old session.new (bytes_of plan.now)
        sent.old sent.new result }
    ensures at_once { L.blocks → result ≢ Acted.Later }
{
    let len = plan.len();
    if *sent == len {
        return acted_by(tell(session, len, *sent));
    }
    match put_next(link, plan, *sent, room, limit) {
        Ok(Sent::Bytes(count)) => {
            *sent += count as u64;
            Acted::Sent {
                count,
                total: *sent,
            }
        }
        Ok(Sent::Later) => Acted::Later,
        Err(_) => {
            tell(session, len, *sent);
            Acted::Ended(End::LinkFault)
        }
    }
}
