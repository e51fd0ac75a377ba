//! One reply over a link that blocks: a request is answered, or memory runs out.
ghost use Rattle.std.specs.Prelude.{◌≡◌, ◌≢◌, ◌∷◌, ◌++◌, ◌+◌, ◌<◌, ℕ, [], IfOk, List, None, OnErr, length};
ghost use Rattle.web_session.specs.declared.phase.Phase.TheVariants.{Asking};
ghost use Rattle.web_session.specs.Run.{item_asked};
ghost use Rattle.dap_reply.specs.declared.served.Mark.{Mark as Noted};
ghost use Rattle.dap_reply.specs.Collections.{Collections, Views};
ghost use Rattle.srv_action.specs.Acts.{stand, Acts, IsLeaving, IsReading, IsReady};
ghost use Rattle.srv_conn.specs.Marks.{IsOneMore, Notes};
ghost use Rattle.srv_conn.specs.Begins.{Begins};
ghost use Rattle.srv_conn.specs.ServesMany.{point_of, Point};
ghost use Rattle.srv_conn.specs.SoFar.{Asks, SoFar};
ghost use Rattle.srv_conn.specs.Follows.{Follows};
ghost use Rattle.srv_conn.specs.Sight.{sight_in, OthersStay};

use crate::answer::{Request, begin};
use crate::looks::Looks;
use crate::trail::{Trail, note};
use dap_reply::Mark;
use dev_traits::Link;
use fm_base::NoMemory;
use srv_action::{Acted, Doing, act, leave};
use std::alloc::Global;
use web_session::{End, Session};

// Begins the reply to what a session asks, and marks it, unless memory runs out. Room for the mark is made first, so
// that no memory is taken between a plan and its sending.
fn begin_marked<K: Looks>(
    alloc: Global,
    looks: &mut K,
    session: &mut Session,
    doing: &mut Doing,
    request: &Request<'_>,
    trail: &mut Trail,
) -> Result<u64, NoMemory>
    requires some { request.now.number < (K.them looks.old).count }
    requires site { request.now.site.now ≡ ((K.them looks.old).proto request.now.number).site }
    requires asking { session.old.phase ≡ Asking request.now.asked }
    ensures begins { Begins ((K.them looks.old).proto request.now.number) ((K.them looks.old).still request.now.number)
        request.now.asked request.now.revision session.old session.new doing.new
        (sight_in (K.views looks.old) request.now.number) (sight_in (K.views looks.new) request.now.number) result }
    ensures others { OthersStay request.now.number (K.views looks.old) (K.views looks.new) }
    ensures marked { IfOk result (λ revision. trail.new ≡ trail.old ++ record { revision = revision; sent = 0 } ∷ []) }
    ensures unmarked { OnErr result (trail.new ≡ trail.old) }
    ensures same { K.them looks.new ≡ K.them looks.old }
{
    if trail.items.reserve(1).is_err() {
        leave(session, doing);
        return Err(NoMemory);
    }
    match begin(alloc, looks, session, doing, request) {
        Ok(revision) => {
            trail.items.push_reserved(Mark { revision, sent: 0 });
            Ok(revision)
        }
        Err(memory) => Err(memory),
    }
}

// Does the next action, and notes how far a reply has gone.
fn act_noted<L: Link>(
    link: &mut L,
    session: &mut Session,
    doing: &mut Doing,
    room: &mut [u8],
    trail: &mut Trail,
) -> Acted
    requires ready { IsReady doing.old session.old }
    requires room { 0 < length room.old }
    ensures acts { Acts (stand (L.shown link.old) session.old doing.old)
        (stand (L.shown link.new) session.new doing.new) result }
    ensures notes { Notes result trail.old trail.new }
    ensures at_once { L.blocks → result ≢ Acted.Later }
{
    match act(link, session, doing, room, usize::MAX) {
        Acted::Sent { count, total } => {
            note(trail, total);
            Acted::Sent { count, total }
        }
        acted => acted,
    }
}

// Sends what is being sent, and notes how far it came. Returns the end of the session, if it ends.
fn finish<L: Link>(
    link: &mut L,
    session: &mut Session,
    doing: &mut Doing,
    room: &mut [u8],
    trail: &mut Trail,
) -> Option<End>
    requires ready { IsReady doing.old session.old }
    requires sends { IsReading doing.old → ⊥ }
    requires room { 0 < length room.old }
    requires blocks { L.blocks }
    ensures follows { (them : Collections) (start : Point) (views : Views) (most : ℕ)
        → SoFar them start (point_of (L.shown link.old) views session.old trail.old) most doing.old
        → Follows them start most (point_of (L.shown link.new) views session.new trail.new) result }
    ensures marks { (front : List Noted) → IsOneMore front trail.old → IsOneMore front trail.new }
    ensures replied { IsLeaving doing.old → result ≡ None → ⊥ }
{
    'sends: loop {
        match act_noted(link, session, doing, room, trail) {
            Acted::Finished => return None,
            Acted::Ended(end) => return Some(end),
            _ => {}
        }
    }
}

/// Replies to a session's request over a link that blocks, or says that memory ran out. Returns the end of the session,
/// if it ends.
pub(crate) fn reply<L: Link, K: Looks>(
    alloc: Global,
    looks: &mut K,
    link: &mut L,
    session: &mut Session,
    request: &Request<'_>,
    room: &mut [u8],
    trail: &mut Trail,
) -> Option<End>
    requires some { request.now.number < (K.them looks.old).count }
    requires site { request.now.site.now ≡ ((K.them looks.old).proto request.now.number).site }
    requires asking { session.old.phase ≡ Asking request.now.asked }
    requires choice { request.now.number ≡ (K.them looks.old).choice (item_asked request.now.asked session.old.held) }
    requires revision { request.now.revision ≡ length ((K.views looks.old).seen request.now.number) }
    requires room { 0 < length room.old }
    requires blocks { L.blocks }
    ensures follows { (start : Point) (most : ℕ)
        → Asks (K.them looks.old) start
        (point_of (L.shown link.old) (K.views looks.old) session.old trail.old) most request.now.asked
        → Follows (K.them looks.old) start most
        (point_of (L.shown link.new) (K.views looks.new) session.new trail.new) result }
    ensures longer { result ≡ None → length trail.new ≡ length trail.old + 1 }
    ensures same { K.them looks.new ≡ K.them looks.old }
{
    let mut doing = Doing::Reading;
    let _begun = begin_marked(alloc, looks, session, &mut doing, request, trail);
    let end = finish(link, session, &mut doing, room, trail);
    drop(doing);
    end
}
