//! What a reader believes of sessions, each as the contract of a call that does nothing.
ghost use Rattle.std.specs.Prelude.{◌≡◌, ◌<◌, ◌≤◌, ◌∷◌, [], ℕ, List, map};
ghost use Rattle.std.specs.List.{sum};
ghost use Rattle.web_frame.specs.Items.{AreFirst, heads_of};
ghost use Rattle.web_session.specs.Run.{AllAnswer, after_events, asks, fed};
ghost use Rattle.web_session.specs.State.{action_of, fresh, replied, State};
ghost use Rattle.web_session.specs.declared.action.Action.{Action};
ghost use Rattle.web_session.specs.declared.action.Asked.{Asked};
ghost use Rattle.web_session.specs.declared.action.End.{End};
ghost use Rattle.web_session.specs.declared.event.Event.{Event as Happens};

use crate::event::Event;
use crate::phase::Phase;

/// A session asks for replies to the heads of the bytes that it was fed, one by one and in order, whatever happens as
/// long as each event answers the last action.
#[tactic(auto, using(crate::proofs::RunLaws::runs))]
pub fn heads_are_asked_in_order(events: &[Event<'_>])
    requires { AllAnswer fresh events.now }
    ensures { AreFirst (asks fresh events.now) (heads_of (fed fresh events.now)).items }
{}

/// A session that waits for bytes has asked for a reply to each head of those that it was fed, and holds the bytes
/// after the last of them.
#[tactic(auto, using(crate::proofs::RunLaws::runs))]
pub fn all_heads_are_asked_before_it_waits(events: &[Event<'_>])
    requires { AllAnswer fresh events.now }
    ensures { (after_events fresh events.now).phase ≡ Phase.Waiting
        → heads_of (fed fresh events.now) ≡ record {
          items = asks fresh events.now;
          rest = (after_events fresh events.now).held.rest;
        } }
{}

/// While the counts that were sent of a reply add up to less than its length, the session sends on from the first
/// unsent byte; once they add up to its length, the reply is whole.
pub fn a_reply_is_sent_from_its_first_unsent_byte()
    ensures unsent { (s : State) (asked : Asked) (len : ℕ) (counts : List ℕ) → s.phase ≡ Phase.Asking asked
        → sum counts < len
        → action_of (after_events s (Happens.Answer len ∷ map Happens.Sent counts)) ≡ Action.Send (sum counts) }
    ensures whole { (s : State) (asked : Asked) (len : ℕ) (counts : List ℕ) → s.phase ≡ Phase.Asking asked
        → len ≤ sum counts
        → after_events s (Happens.Answer len ∷ map Happens.Sent counts) ≡ replied s asked }
{}

/// A session that has ended stays as it is, whatever happens.
pub fn an_end_stays()
    ensures { (events : List Happens) (s : State) (end : End) → s.phase ≡ Phase.Ended end
        → after_events s events ≡ s }
{}

/// A session that is asked again stays as it is, so its next action is the one that it gave before. Whoever drops an
/// action and asks for it again by `Start` loses nothing.
pub fn asking_again_changes_nothing()
    ensures { (s : State) → after_events s (Happens.Start ∷ []) ≡ s }
{}
