//! What a reader believes of worlds, each as the contract of a call that does nothing.
ghost use Rattle.std.specs.Prelude.{◌≡◌, ◌<◌, ◌≤◌, ◌-◌, ◌++◌, ℕ, List, Some, filter, length, slice_get, take, true};
ghost use Rattle.fm_model.specs.declared.op.Op.{Op as Operation};
ghost use Rattle.fm_model.specs.declared.proto.Proto.{Proto as Prototype};
ghost use Rattle.web_frame.specs.Items.{heads_of};
ghost use Rattle.web_session.specs.State.{fresh};
ghost use Rattle.dap_reply.specs.Script.{script_of};
ghost use Rattle.dap_reply.specs.Served.{LinkCall, Served};
ghost use Rattle.pub_core.specs.declared.event.Event.{Event as Happens};
ghost use Rattle.pub_core.specs.Apart.{concerns, NeverFall};
ghost use Rattle.pub_core.specs.Happening.{after, run, settled};
ghost use Rattle.pub_core.specs.Outcome.{outcome_of};
ghost use Rattle.pub_core.specs.Running.{first_output, world_of, AreTakenInTurn};
ghost use Rattle.pub_core.specs.World.{rest_fed, start, waits, SessionState};

/// The output of each session of a run is a front of the replies to the requests that it was fed, over revisions that
/// never fall. None of them passes the number that the session has seen, and that doesn't pass the length of the log.
#[tactic(auto, using(crate::proofs::Rising::rising))]
pub fn an_output_is_a_script_over_revisions_that_never_fall()
    ensures output { (proto : Prototype) (sessions number : ℕ) (events : List Happens) (s : SessionState)
        → slice_get (run proto (start sessions) events).sessions number ≡ Some s
        → slice_get (outcome_of proto (run proto (start sessions) events)).outputs number
        ≡ Some (take s.sent (script_of proto (run proto (start sessions) events).log s.revs (heads_of s.fed).items 0)) }
    ensures never_fall { (proto : Prototype) (sessions number : ℕ) (events : List Happens) (s : SessionState)
        → slice_get (run proto (start sessions) events).sessions number ≡ Some s → NeverFall s.revs s.seen }
    ensures known { (proto : Prototype) (sessions number : ℕ) (events : List Happens) (s : SessionState)
        → slice_get (run proto (start sessions) events).sessions number ≡ Some s
        → s.seen ≤ length (run proto (start sessions) events).log }
{}

/// A session that waits takes bytes as long as it then holds at most 16,384 that belong to no request before them, and
/// more at once change nothing.
#[tactic(auto, using(crate::proofs::FedLemmas::limits))]
pub fn a_session_takes_bytes_up_to_a_limit()
    ensures past { (proto : Prototype) (log : List Operation) (s : SessionState) (number : ℕ) (piece : List ℕ)
        → 16384 - length (rest_fed s) < length piece → after proto log (Happens.Bytes number piece) s ≡ s }
    ensures within { (proto : Prototype) (log : List Operation) (s : SessionState) (number : ℕ) (piece : List ℕ)
        → waits proto log s ≡ true → 0 < length piece → length piece ≤ 16384 - length (rest_fed s)
        → after proto log (Happens.Bytes number piece) s ≡ settled proto log (record s { fed = s.fed ++ piece }) }
{}

/// A run without the events of other sessions leads to the same log and to the same session. So others change what a
/// session is sent only by what is published before it looks.
#[tactic(auto, using(crate::proofs::Apart::apart))]
pub fn other_sessions_make_no_difference()
    ensures log { (proto : Prototype) (sessions number : ℕ) (events : List Happens)
        → (run proto (start sessions) (filter (concerns number) events)).log
        ≡ (run proto (start sessions) events).log }
    ensures session { (proto : Prototype) (sessions number : ℕ) (events : List Happens)
        → slice_get (run proto (start sessions) (filter (concerns number) events)).sessions number
        ≡ slice_get (run proto (start sessions) events).sessions number }
{}

/// The law of running: a served link is a run. Where the session was fresh and each operation seen could be published
/// after those before it, the events of the call lead to a session whose output is what was written to the link, but
/// for the text that says that memory ran out.
#[tactic(auto, using(crate::proofs::ServedLaw::running))]
pub fn a_served_link_is_a_run()
    ensures { (call : LinkCall) (served : Served call) → call.session ≡ fresh
        → AreTakenInTurn call.seen_after
        → call.written ≡ first_output call.proto (world_of call) ++ served.writes.farewell }
{}
