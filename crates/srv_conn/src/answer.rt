//! The reply to what a session asks for.
ghost use Rattle.std.specs.Prelude.{◌≡◌, ◌++◌, ◌<◌, IfOk, OnErr, OnOk, false, length, true};
ghost use Rattle.fm_model.specs.Collection.{coll};
ghost use Rattle.pub_look.specs.History.{Continues, MayHaveLooked};
ghost use Rattle.web_session.specs.declared.phase.Phase.TheVariants.{Asking};
ghost use Rattle.dap_reply.specs.Order.{item_by};
ghost use Rattle.dap_reply.specs.Parts.{bytes_of};
ghost use Rattle.dap_reply.specs.Reply.{answer_to, has_head_alone, is_wanted, reply_text};
ghost use Rattle.web_session.specs.Run.{item_asked};
ghost use Rattle.srv_conn.specs.Begins.{looks_for, revision_for, Begins};
ghost use Rattle.srv_conn.specs.Sight.{sight_in, OthersStay};

use crate::looks::Looks;
use dap_reply::{Order, Plan, order, refusal};
use fm_base::NoMemory;
use fm_model::Site;
use srv_action::{Doing, leave};
use std::alloc::Global;
use std::mem::replace;
use web_session::{Asked, Session};

/// A session's question, the collection that it is for by its number and its site, and the revision of the last reply
/// from that collection.
#[derive(Clone, Copy)]
pub(crate) struct Request<'a> {
    pub(crate) asked: Asked,
    pub(crate) number: usize,
    pub(crate) site: &'a Site,
    pub(crate) revision: u64,
}

/// The collection that a session's question is for.
pub(crate) fn choice_of<K: Looks>(
    looks: &K,
    sites: &K::Sites,
    session: &Session,
    asked: Asked,
) -> usize
    requires fits { K.fits (K.them looks.now) sites.now }
    ensures choice { result ≡ (K.them looks.now).choice (item_asked asked session.now.held) }
    ensures some { result < (K.them looks.now).count }
    ensures few { result < 8 }
{
    looks.choose(sites, asked, session.target())
}

// The reply to a request, whose present target is handed in, and its revision. There is one look where the collection
// has to be looked at, and else none: then the reply has the revision of the one before it. `last` says whether the
// connection ends after the reply.
#[tactic(auto, unfolding(dap_reply::specs::Order::order_of, dap_reply::specs::Planned::planned, dap_reply::specs::Planned::answer_over, dap_reply::specs::Planned::refused, dap_reply::specs::Reply::answer_to), using(dap_reply::proofs::ReplyLemmas::parts))]
fn answer<K: Looks>(
    alloc: Global,
    looks: &mut K,
    request: &Request<'_>,
    target: &[u8],
    last: bool,
) -> Result<(Plan, u64), NoMemory>
    requires some { request.now.number < (K.them looks.old).count }
    requires site { request.now.site.now ≡ ((K.them looks.old).proto request.now.number).site }
    ensures reply { IfOk result (λ found. bytes_of found.0
        ≡ reply_text (answer_to ((K.them looks.new).proto request.now.number)
        (coll ((K.views looks.new).seen request.now.number)) (item_by request.now.asked target.now)) found.1
        (has_head_alone (item_by request.now.asked target.now)) last) }
    ensures revision { IfOk result (λ found. found.1
        ≡ revision_for (is_wanted request.now.site.now (item_by request.now.asked target.now))
        (length ((K.views looks.new).seen request.now.number)) request.now.revision) }
    ensures looked { OnOk result ((K.views looks.new).looks request.now.number
        ≡ (K.views looks.old).looks request.now.number
        ++ looks_for (is_wanted request.now.site.now (item_by request.now.asked target.now))
        (length ((K.views looks.new).seen request.now.number))) }
    ensures unwanted { is_wanted request.now.site.now (item_by request.now.asked target.now) ≡ false
        → (K.views looks.new).seen request.now.number ≡ (K.views looks.old).seen request.now.number }
    ensures err { OnErr result (MayHaveLooked ((K.views looks.old).looks request.now.number)
        (length ((K.views looks.new).seen request.now.number)) ((K.views looks.new).looks request.now.number)) }
    ensures later { Continues ((K.views looks.old).seen request.now.number)
        ((K.views looks.new).seen request.now.number) }
    ensures stays { (K.them looks.old).still request.now.number ≡ true
        → (K.views looks.new).seen request.now.number ≡ (K.views looks.old).seen request.now.number }
    ensures others { OthersStay request.now.number (K.views looks.old) (K.views looks.new) }
    ensures same { K.them looks.new ≡ K.them looks.old }
{
    match order(alloc, request.asked, target, last, request.site)? {
        Order::Wanted(dap) => {
            let found = looks.ask_in(alloc, request.number, &dap);
            drop(dap);
            found
        }
        Order::Refused { fault, head, last } => {
            let plan = refusal(alloc, &fault, request.revision, head, last);
            drop(fault);
            Ok((plan?, request.revision))
        }
    }
}

/// Begins the reply to what a session asks, and returns its revision. Where memory runs out the session leaves.
pub(crate) fn begin<K: Looks>(
    alloc: Global,
    looks: &mut K,
    session: &mut Session,
    doing: &mut Doing,
    request: &Request<'_>,
) -> Result<u64, NoMemory>
    requires some { request.now.number < (K.them looks.old).count }
    requires site { request.now.site.now ≡ ((K.them looks.old).proto request.now.number).site }
    requires asking { session.old.phase ≡ Asking request.now.asked }
    ensures begins { Begins ((K.them looks.old).proto request.now.number) ((K.them looks.old).still request.now.number)
        request.now.asked request.now.revision session.old session.new doing.new
        (sight_in (K.views looks.old) request.now.number) (sight_in (K.views looks.new) request.now.number) result }
    ensures others { OthersStay request.now.number (K.views looks.old) (K.views looks.new) }
    ensures same { K.them looks.new ≡ K.them looks.old }
{
    match answer(alloc, looks, request, session.target(), session.last()) {
        Ok((plan, revision)) => {
            drop(replace(doing, Doing::Replying { plan, sent: 0 }));
            Ok(revision)
        }
        Err(memory) => {
            leave(session, doing);
            Err(memory)
        }
    }
}
