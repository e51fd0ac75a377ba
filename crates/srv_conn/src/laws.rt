//! Laws of served links, each as the contract of a call that does nothing.
ghost use Rattle.std.specs.Prelude.{◌≡◌, ◌≢◌, ◌<◌, ℕ, length, slice_get, Some};
ghost use Rattle.web_frame.specs.Items.{Item};
ghost use Rattle.web_session.specs.declared.action.End.TheVariants.{NoMemory};
ghost use Rattle.dap_reply.specs.declared.served.Mark.{Mark};
ghost use Rattle.dap_reply.specs.declared.served.Stop.TheVariants.{Ended};
ghost use Rattle.dap_reply.specs.Served.{items_of, marked_reply, number_at, HasFailed, LinkCall, Served};
ghost use Rattle.dap_reply.specs.ServedMany.{all_items, call_in, reply_for, ManyCall, ServedMany};
ghost use Rattle.srv_conn.specs.Answered.{GoesOnBefore, IsAnswered, IsAnsweredFor};
ghost use Rattle.srv_conn.specs.WrittenAt.{GetsData, GetsDataFor};

/// Where no call of the link failed and memory didn't run out, each of the first `most` requests that were read has its
/// whole reply, up to the one after which the connection ends.
#[tactic(auto, using(crate::proofs::LawLemmas::laws))]
pub fn each_request_that_is_read_has_its_whole_reply()
    ensures { (call : LinkCall) → Served call → ¬ (HasFailed call) → call.stop ≢ Ended NoMemory
        → (index : ℕ) (item : Item) → index < call.most → slice_get (items_of call) index ≡ Some item
        → GoesOnBefore call index → IsAnswered call index item }
{}

/// A reply that was begun is written whole, unless a call of the link failed. Memory that runs out cuts none.
#[tactic(auto, using(crate::proofs::LawLemmas::laws))]
pub fn a_reply_that_is_begun_is_whole_unless_the_link_fails()
    ensures { (call : LinkCall) → Served call → ¬ (HasFailed call) → (index : ℕ) (mark : Mark) (item : Item)
        → slice_get call.trail index ≡ Some mark → slice_get (items_of call) index ≡ Some item
        → mark.sent ≡ length (marked_reply call.proto call.seen_after mark item (number_at call index)) }
{}

/// A well-formed request gets data. Where no call of the link failed and memory didn't run out, a request that was
/// read, up to the one after which the connection ends, has its reply over the collection of one moment. Where it is a
/// GET or HEAD without a body for a view with rows, whose constraint names what is there, and the body is within the
/// limit, the bytes written for it are a head with status 200 and, but to HEAD, that body.
#[tactic(auto, using(crate::proofs::WrittenLemmas::data_laws))]
pub fn a_well_formed_request_gets_data()
    ensures { (call : LinkCall) → Served call → ¬ (HasFailed call) → call.stop ≢ Ended NoMemory
        → (index : ℕ) (item : Item) → index < call.most → slice_get (items_of call) index ≡ Some item
        → GoesOnBefore call index → GetsData call index item }
{}

/// The same over several collections: each request has its whole reply over the collection that it is for, and a reply
/// that was begun is whole.
#[tactic(auto, using(crate::proofs::LawLemmas::laws))]
pub fn each_request_has_its_whole_reply_over_its_own_collection()
    ensures answered { (call : ManyCall) → ServedMany call → ¬ (HasFailed (call_in call 0))
        → call.stop ≢ Ended NoMemory → (index : ℕ) (item : Item) → index < call.most
        → slice_get (all_items call) index ≡ Some item → GoesOnBefore (call_in call 0) index
        → IsAnsweredFor call index item }
    ensures whole { (call : ManyCall) → ServedMany call → ¬ (HasFailed (call_in call 0)) → (index : ℕ) (mark : Mark)
        (item : Item) → slice_get call.trail index ≡ Some mark → slice_get (all_items call) index ≡ Some item
        → mark.sent ≡ length (reply_for call.them call.after.seen mark item (number_at (call_in call 0) index)) }
{}

/// And a well-formed request gets data of its own collection.
#[tactic(auto, using(crate::proofs::WrittenLemmas::data_laws))]
pub fn a_well_formed_request_gets_data_of_its_own_collection()
    ensures { (call : ManyCall) → ServedMany call → ¬ (HasFailed (call_in call 0)) → call.stop ≢ Ended NoMemory
        → (index : ℕ) (item : Item) → index < call.most → slice_get (all_items call) index ≡ Some item
        → GoesOnBefore (call_in call 0) index → GetsDataFor call index item }
{}
