//! What a reader believes of replies, each as the contract of a call that does nothing.
ghost use Rattle.std.specs.Prelude.{◌≡◌, ◌≢◌, ◌⊎◌, ◌↔◌, ◌+◌, ◌<◌, ◌≤◌, ◌++◌, ℕ, [], Bool, Err, List, All, drop, false, filter, is_some, length, map, take, true};
ghost use Rattle.fm_base.specs.Chain.{fault_as};
ghost use Rattle.fm_model.specs.declared.loaded.Loaded.{Loaded};
ghost use Rattle.fm_model.specs.declared.site.Site.{Site};
ghost use Rattle.fm_model.specs.Rows.{rows};
ghost use Rattle.web_frame.specs.declared.request.Method.{Method};
ghost use Rattle.web_frame.specs.declared.request.Request.{Request};
ghost use Rattle.web_path.specs.Target.{target_of};
ghost use Rattle.dap_reply.specs.declared.body.Body.{Body};
ghost use Rattle.dap_reply.specs.declared.fault.DapFault.{DapFault};
ghost use Rattle.dap_reply.specs.WellFormed.{IsWellFormed};
ghost use Rattle.dap_model.specs.declared.projection.Clause.{Clause};
ghost use Rattle.dap_model.specs.declared.projection.Projected.{Projected};
ghost use Rattle.dap_das.specs.AttributeText.{das_of};
ghost use Rattle.web_path.specs.declared.target.Service.TheVariants.{Das, Dds, Dods};
ghost use Rattle.web_path.specs.declared.target.Target.{Target};
ghost use Rattle.dap_reply.specs.declared.body.Answer.{Answer};
ghost use Rattle.dap_reply.specs.declared.body.BodyKind.TheVariants.{Attributes, Structure};
ghost use Rattle.dap_reply.specs.Body.{body_of, data_body, structure_of, text_body, MAX_BODY};
ghost use Rattle.dap_reply.specs.Asked.{shown_of, AsksForView, IsProjected};
ghost use Rattle.dap_reply.specs.Head.{head_text, no_memory_reply};
ghost use Rattle.dap_plan.specs.Parts.{bytes_of};
ghost use Rattle.dap_reply.specs.Reply.{fine_with, answer_to, target_wanted, has_head_alone, answer_head, is_last, is_wanted, reply_of, reply_parts, reply_text};
ghost use Rattle.fm_model.specs.declared.op.Op.{Op};
ghost use Rattle.fm_model.specs.declared.proto.Proto.{Proto};
ghost use Rattle.web_frame.specs.Items.{bytes_after, heads_of, request, Item};
ghost use Rattle.dap_reply.specs.Script.{script_of};
ghost use Rattle.web_session.specs.declared.action.End.{End};
ghost use Rattle.web_session.specs.State.{end_after, end_of_input};
ghost use Rattle.dap_reply.specs.declared.served.Mark.{Mark};
ghost use Rattle.dap_reply.specs.declared.served.Stop.{Stop};
ghost use Rattle.dap_reply.specs.Served.{asked_of, held_bytes, input_of, items_of, HasFailed, LinkCall, Served};
ghost use Rattle.dap_reply.specs.ServedMany.{as_many, ServedMany};

/// What a connection is sent for more replies begins with what it is sent for fewer, and goes on with the replies to
/// the items after them.
#[tactic(auto, using(crate::proofs::ScriptLemmas::scripts))]
pub fn a_script_goes_on()
    ensures { (proto : Proto) (ops : List Op) (revisions more : List ℕ) (items : List Item) (before : ℕ)
        → script_of proto ops (revisions ++ more) items before
        ≡ script_of proto ops revisions items before
        ++ script_of proto ops more (drop (length revisions) items) (before + length revisions) }
{}

/// Operations that are published later change no reply over those before them.
#[tactic(auto, using(crate::proofs::ScriptLemmas::scripts))]
pub fn later_operations_change_no_script()
    ensures { (proto : Proto) (ops later : List Op) (revisions : List ℕ) (items : List Item) (before : ℕ)
        → All (λ (revision : ℕ). revision ≤ length ops) revisions
        → script_of proto (ops ++ later) revisions items before ≡ script_of proto ops revisions items before }
{}

/// A request without a fault gets what it asks for: of a view that has rows, for a constraint that is one and that
/// names what is there, within the limit of bodies, the structure text, the attribute text, or the structure text and
/// the data.
#[tactic(auto, using(crate::proofs::AnswerLemmas::answers))]
pub fn a_request_without_a_fault_gets_what_it_asks_for()
    ensures structure { (proto : Proto) (files : List Loaded) (item : Item) (target : Target) (clauses : List Clause)
        (projected : Projected) → AsksForView proto files item target
        → IsProjected proto files target clauses projected → target.service ≡ Dds
        → length (structure_of target projected) ≤ MAX_BODY
        → answer_to proto files item ≡ fine_with (text_body Structure (structure_of target projected)) }
    ensures attributes { (proto : Proto) (files : List Loaded) (item : Item) (target : Target)
        → AsksForView proto files item target → target.service ≡ Das
        → length (das_of proto target.view) ≤ MAX_BODY
        → answer_to proto files item ≡ fine_with (text_body Attributes (das_of proto target.view)) }
    ensures data { (proto : Proto) (files : List Loaded) (item : Item) (target : Target) (clauses : List Clause)
        (projected : Projected) → AsksForView proto files item target
        → IsProjected proto files target clauses projected → target.service ≡ Dods
        → length (bytes_of (data_body (shown_of proto files target) target projected).bytes) ≤ MAX_BODY
        → answer_to proto files item ≡ fine_with (data_body (shown_of proto files target) target projected) }
{}

/// A well-formed request, GET or HEAD and without a body, for a view with rows, whose constraint is one and names what
/// is there, gets status 200 with what it asks for, within the limit of bodies.
pub fn a_well_formed_request_gets_what_it_asks_for()
    ensures { (proto : Proto) (files : List Loaded) (item : Item) (target : Target) (body : Body)
        (revision number : ℕ) → IsWellFormed proto files item target body
        → reply_of proto files revision item number
        ≡ reply_text (fine_with body) revision (has_head_alone item) (is_last item number) }
{}

/// The faults for which no collection is looked at, in their order: the method, a body, and then those of the target.
#[tactic(auto, using(crate::proofs::WellFormedLemmas::orders))]
pub fn a_method_comes_before_a_body_and_a_body_before_a_target()
    ensures method { (site : Site) (said : Request) (text : List ℕ) → said.method ≡ Method.Other
        → target_wanted site (request said text) ≡ Err DapFault.Method }
    ensures body { (site : Site) (said : Request) (text : List ℕ)
        → (said.method ≡ Method.Get) ⊎ (said.method ≡ Method.Head) → said.has_body ≡ true
        → target_wanted site (request said text) ≡ Err DapFault.BodyNotTaken }
    ensures target { (site : Site) (said : Request) (text : List ℕ)
        → (said.method ≡ Method.Get) ⊎ (said.method ≡ Method.Head) → said.has_body ≡ false
        → target_wanted site (request said text) ≡ fault_as DapFault.Path (target_of site text) }
{}

/// Where a view has no rows, that is the fault, whatever the service and the constraint.
#[tactic(auto, using(crate::proofs::OrderLemmas::rows_before))]
pub fn no_rows_come_before_a_constraint()
    ensures { (proto : Proto) (files : List Loaded) (target : Target) → rows files target.view ≡ []
        → body_of proto files target ≡ Err DapFault.NoRows }
{}

/// The parts of a reply are its bytes: its head, and its body but to HEAD.
#[tactic(auto, using(crate::proofs::ReplyLemmas::parts))]
pub fn a_reply_in_parts_is_the_reply()
    ensures { (answer : Answer) (revision : ℕ) (head_alone last : Bool) →
        bytes_of (reply_parts answer revision head_alone last) ≡ reply_text answer revision head_alone last }
{}

/// The reply to HEAD is the head that GET would have, alone, also where the request is refused.
#[tactic(auto, using(crate::proofs::ReplyLemmas::heads))]
pub fn a_reply_to_head_is_its_head_alone()
    ensures head { (proto : Proto) (files : List Loaded) (said : Request) (text : List ℕ) (revision number : ℕ)
        → said.method ≡ Method.Head → reply_of proto files revision (request said text) number
        ≡ head_text (answer_head (answer_to proto files (request said text)) revision
        (is_last (request said text) number)) }
    ensures others { (proto : Proto) (files : List Loaded) (said : Request) (text : List ℕ) (revision number : ℕ)
        → said.method ≢ Method.Head → reply_of proto files revision (request said text) number
        ≡ head_text (answer_head (answer_to proto files (request said text)) revision
        (is_last (request said text) number)) ++ bytes_of (answer_to proto files (request said text)).body.bytes }
{}

/// A link that didn't fail was sent the replies to the first requests of its input, whole and in order, each over the
/// collection that the operations of its revision left. Where memory ran out, the text that says so follows.
pub fn a_served_link_is_sent_a_script()
    ensures ample { (call : LinkCall) → Served call → call.stop ≢ Stop.Ended End.LinkFault
        → call.stop ≢ Stop.Ended End.NoMemory
        → call.written ≡ script_of call.proto call.seen_after (map (λ (mark : Mark). mark.revision) call.trail)
        (items_of call) call.session.before }
    ensures short { (call : LinkCall) → Served call → ¬ (HasFailed call) → call.stop ≡ Stop.Ended End.NoMemory
        → call.written ≡ script_of call.proto call.seen_after (map (λ (mark : Mark). mark.revision) call.trail)
        (items_of call) call.session.before ++ no_memory_reply }
{}

/// There is one look for each reply that a collection is looked at for, and no other. Where memory ran out, one more
/// may follow.
#[tactic(auto, using(crate::proofs::ServedLemmas::served))]
pub fn each_wanted_reply_has_one_look()
    ensures ample { (call : LinkCall) → Served call → call.stop ≢ Stop.Ended End.NoMemory → length call.looks_after
        ≡ length call.looks + length (filter (is_wanted call.proto.site) (take (length call.trail) (items_of call))) }
    ensures short { (call : LinkCall) → Served call → length call.looks_after ≤ length call.looks
        + length (filter (is_wanted call.proto.site) (take (length call.trail) (items_of call))) + 1 }
{}

/// A link gets no more replies than were asked for, and as many where the call says that these are enough. Then the
/// session holds the bytes after the heads that were answered, and counts the replies. Memory runs out only where a
/// reply is due.
#[tactic(auto, using(crate::proofs::ServedLemmas::served))]
pub fn a_link_gets_the_replies_that_were_asked_for()
    ensures most { (call : LinkCall) → Served call → length call.trail ≤ call.most }
    ensures enough { (call : LinkCall) → Served call → call.stop ≡ Stop.Enough → (length call.trail ≡ call.most)
        × (held_bytes call.session_after ≡ bytes_after call.most (input_of call))
        × (call.session_after.before ≡ call.session.before + call.most) }
    ensures due { (call : LinkCall) → Served call → call.stop ≡ Stop.Ended End.NoMemory
        → (length call.trail < length (items_of call)) × (length call.trail < call.most) }
{}

/// Where input is over, the end says how many bytes are left of it that aren't a whole head.
#[tactic(auto, using(crate::proofs::ServedLemmas::served))]
pub fn an_end_of_input_says_what_is_left()
    ensures closed { (call : LinkCall) → Served call → call.stop ≡ Stop.Ended End.Closed
        → end_of_input (heads_of (input_of call)).rest ≡ End.Closed }
    ensures cut { (call : LinkCall) (left : ℕ) → Served call → call.stop ≡ Stop.Ended (End.Cut left)
        → end_of_input (heads_of (input_of call)).rest ≡ End.Cut left }
{}

/// A reply is a connection's last exactly where the connection ends after it.
#[tactic(auto, using(crate::proofs::ServedLemmas::served))]
pub fn a_last_reply_ends_its_link()
    ensures { (item : Item) (before : ℕ) →
        is_last item (before + 1) ≡ is_some (end_after (asked_of item) before) }
{}

/// A link of one collection is served exactly where it is served as a link of several.
pub fn a_link_of_one_collection_is_served_as_one_of_several()
    ensures { (call : LinkCall) → Served call ↔ ServedMany (as_many call) }
{}
