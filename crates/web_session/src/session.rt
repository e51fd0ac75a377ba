//! One connection.
ghost use Rattle.std.specs.Prelude.{◌≡◌, ◌<◌, IfOk, IfSome};
ghost use Rattle.web_frame.specs.Items.{item_of};
ghost use Rattle.web_frame.specs.Stream.{held_after, next_of, target_in};
ghost use Rattle.web_session.specs.Event as step;
ghost use Rattle.web_session.specs.State as spec;

use crate::action::{Action, Asked, End};
use crate::event::Event;
use crate::packed::PackedSession;
use crate::phase::{MAX_REPLIES, Phase};
use fm_base::NoMemory;
use std::alloc::Global;
use std::marker::Model;
use web_frame::{Frame, MAX_HEAD, Next};

/// A connection: what was read of it and not yet answered, and where it stands.
#[derive(Drop)]
pub struct Session {
    frame: Frame,
    phase: Phase,
    before: u32,
}

impl Model for Session {
    ghost use Rattle.std.specs.Prelude.{◌≡◌, true};
    ghost use Rattle.web_session.specs.State.{State, is_sound};

    ghost Value = { State };

    ghost view = { λ s. record { phase = s.phase; held = s.frame; before = s.before } };

    ghost invariant = { λ s. is_sound (record { phase = s.phase; held = s.frame; before = s.before }) ≡ true };
}

// How the link ends after the reply to what was asked, if it does.
fn end_after(asked: Asked, before: u32) -> Option<End>
    requires { before < MAX_REPLIES }
    ensures { result ≡ spec.end_after asked before }
{
    match asked {
        Asked::BadHead => Some(End::BadHead),
        Asked::HeadTooLong => Some(End::HeadTooLong),
        Asked::Head(request) if request.close => Some(End::Asked),
        Asked::Head(request) if request.has_body => Some(End::BodyNotTaken),
        Asked::Head(_) if before + 1 == MAX_REPLIES => Some(End::RequestLimit),
        Asked::Head(_) => None,
    }
}

// Looks for the next head, and returns where that leaves a session.
fn look(frame: &mut Frame) -> Phase
    ensures phase { result ≡ spec.phase_after (next_of frame.old.rest) }
    ensures held { frame.new ≡ held_after frame.old.rest }
{
    match frame.next() {
        Next::Need => Phase::Waiting,
        Next::Head(request) => Phase::Asking(Asked::Head(request)),
        Next::BadHead => Phase::Asking(Asked::BadHead),
        Next::HeadTooLong => Phase::Asking(Asked::HeadTooLong),
    }
}

impl Session {
    #[tactic(auto, unfolding(crate::specs::State::is_sound))]
    pub fn new(alloc: Global) -> Result<Session, NoMemory>
        ensures { IfOk result (λ session. session ≡ spec.fresh) }
    {
        Ok(Session {
            frame: Frame::new(alloc)?,
            phase: Phase::Waiting,
            before: 0,
        })
    }

    /// The same session, in no more memory than its bytes take. `None` where there is no memory for it, or a head has
    /// begun that isn't whole, of which each byte is looked at once.
    pub fn packed(&self, alloc: Global) -> Option<PackedSession>
        ensures { IfSome result (λ packed. packed ≡ self.now) }
    {
        if matches!(self.phase, Phase::Waiting) && self.frame.room() < MAX_HEAD {
            return None;
        }
        match self.frame.packed(alloc) {
            Ok(frame) => Some(PackedSession {
                frame,
                phase: self.phase,
                before: self.before,
            }),
            Err(NoMemory) => None,
        }
    }

    /// Becomes the session that is packed.
    pub fn unpack(&mut self, packed: &PackedSession)
        ensures { self.new ≡ packed.now }
    {
        self.frame.unpack(&packed.frame);
        self.phase = packed.phase;
        self.before = packed.before;
    }

    // The reply that was asked for is whole.
    #[tactic(auto, using(crate::proofs::SoundLemmas::sounds), unfolding(crate::specs::State::replied, crate::specs::State::looked))]
    fn reply_whole(&mut self, asked: Asked)
        requires { self.old.before < MAX_REPLIES }
        ensures { self.new ≡ spec.replied self.old asked }
    {
        match end_after(asked, self.before) {
            Some(end) => self.phase = Phase::Ended(end),
            None => {
                self.before += 1;
                self.phase = look(&mut self.frame);
            }
        }
    }

    // The reply to what was asked has this length, and was sent as far as that.
    #[tactic(auto, using(crate::proofs::SoundLemmas::sounds), unfolding(crate::specs::State::sent))]
    fn sent_to(&mut self, asked: Asked, from: u64, len: u64)
        requires { self.old.before < MAX_REPLIES }
        ensures { self.new ≡ spec.sent self.old asked from len }
    {
        if from < len {
            self.phase = Phase::Sending { asked, from, len };
        } else {
            self.reply_whole(asked);
        }
    }

    #[tactic(auto, using(crate::proofs::SoundLemmas::sounds), unfolding(crate::specs::Event::after_event, crate::specs::State::looked, crate::specs::State::end_of_input))]
    fn on_input(&mut self, event: Event<'_>)
        requires waiting { self.old.phase ≡ Phase.Waiting }
        requires goes_on { self.old.before < MAX_REPLIES }
        ensures { self.new ≡ step.after_event self.old event.entry }
    {
        match event {
            Event::Bytes(piece) => {
                self.frame.feed(piece);
                self.phase = look(&mut self.frame);
            }
            Event::EndOfInput => {
                let left = self.frame.begun();
                self.phase = Phase::Ended(if left == 0 {
                    End::Closed
                } else {
                    End::Cut(left as u64)
                });
            }
            Event::Fault => self.phase = Phase::Ended(End::LinkFault),
            _ => {}
        }
    }

    #[tactic(auto, using(crate::proofs::SoundLemmas::sounds), unfolding(crate::specs::Event::after_event))]
    fn on_answer(&mut self, asked: Asked, event: Event<'_>)
        requires asking { self.old.phase ≡ Phase.Asking asked }
        requires goes_on { self.old.before < MAX_REPLIES }
        ensures { self.new ≡ step.after_event self.old event.entry }
    {
        match event {
            Event::Answer { len } => self.sent_to(asked, 0, len),
            Event::NoAnswer => self.phase = Phase::Ended(End::NoMemory),
            Event::Start => {}
            _ => {}
        }
    }

    #[tactic(auto, using(crate::proofs::SoundLemmas::sounds), unfolding(crate::specs::Event::after_event))]
    fn on_sent(&mut self, asked: Asked, from: u64, len: u64, event: Event<'_>)
        requires sending { self.old.phase ≡ Phase.Sending asked from len }
        requires goes_on { self.old.before < MAX_REPLIES }
        ensures { self.new ≡ step.after_event self.old event.entry }
    {
        match event {
            Event::Sent(count) => self.sent_to(asked, from.saturating_add(count), len),
            Event::Fault => self.phase = Phase::Ended(End::LinkFault),
            _ => {}
        }
    }

    // What is due.
    #[tactic(auto, using(crate::proofs::SoundLemmas::sounds), unfolding(crate::specs::State::action_of, crate::specs::State::is_sound))]
    fn action(&self) -> Action
        ensures action { result ≡ spec.action_of self.now }
        ensures room { spec.IfRead result (λ room. 0 < room) }
    {
        match self.phase {
            Phase::Waiting => Action::Read(self.frame.room()),
            Phase::Asking(asked) => Action::Ask(asked),
            Phase::Sending { from, .. } => Action::Send { from },
            Phase::Ended(end) => Action::Close(end),
        }
    }

    /// Takes the answer to the last action, and returns the next one. An event that answers no action of that kind
    /// changes nothing and returns the action that is due, as `Start` always does. Bytes past the room that was asked
    /// for aren't taken.
    #[tactic(auto, unfolding(crate::specs::Event::after_event))]
    pub fn on(&mut self, event: Event<'_>) -> Action
        ensures state { self.new ≡ step.after_event self.old event.entry }
        ensures action { result ≡ spec.action_of self.new }

        // Where bytes are read, there is room for some.
        ensures room { spec.IfRead result (λ room. 0 < room) }
    {
        match self.phase {
            Phase::Waiting => self.on_input(event),
            Phase::Asking(asked) => self.on_answer(asked, event),
            Phase::Sending { asked, from, len } => self.on_sent(asked, from, len, event),
            Phase::Ended(_) => {}
        }
        self.action()
    }

    /// The target of the present request, and no bytes where there is none.
    pub fn target(&self) -> &[u8]
        ensures { result.now ≡ target_in (item_of self.now.held.head) }
    {
        self.frame.target()
    }

    /// Whether the link ends after the reply to the present request.
    #[tactic(auto, using(crate::proofs::SoundLemmas::sounds), unfolding(crate::specs::State::ends_link, crate::specs::State::is_sound))]
    pub fn last(&self) -> bool
        ensures { result ≡ spec.ends_link self.now.phase self.now.before }
    {
        match self.phase {
            Phase::Waiting | Phase::Ended(_) => false,
            Phase::Asking(asked) | Phase::Sending { asked, .. } => end_after(
                asked,
                self.before,
            ).is_some(),
        }
    }
}
