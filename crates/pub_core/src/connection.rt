//! One session, run step by step: a machine that reads requests, the reply that is sent, and all that was sent.
ghost use Rattle.std.specs.Prelude.{◌≡◌, ◌+◌, ◌<◌, ◌≤◌, ◌&&◌, nat_le, nat_lt, true, [], ℕ, IfOk, List, OnOk, Some, drop, length, take};
ghost use Rattle.fm_model.specs.declared.op.Op.{Op};
ghost use Rattle.fm_model.specs.declared.proto.Proto.{Proto};
ghost use Rattle.fm_model.specs.Collection.{coll};
ghost use Rattle.fm_edition.specs.Log.{held_of};
ghost use Rattle.web_session.specs.Event.{after_event};
ghost use Rattle.web_session.specs.declared.event.Event.TheVariants as step;
ghost use Rattle.web_session.specs.Run.{item_asked};
ghost use Rattle.web_session.specs.State.{ends_link};
ghost use Rattle.dap_reply.specs.Order.{order_of};
ghost use Rattle.dap_reply.specs.Parts.{bytes_of};
ghost use Rattle.pub_core.specs.declared.event.Event.TheVariants as events;
ghost use Rattle.pub_core.specs.Happening.{after, begun};
ghost use Rattle.pub_core.specs.World.{SessionState, untouched};
ghost use Rattle.pub_core.specs.Shown.{IsShown, Shows};

use crate::event::Event;
use dap_reply::{Order, Plan, order, plan, refusal};
use fm_base::{Bytes, NoMemory};
use fm_edition::Edition;
use fm_model::Site;
use std::alloc::Global;
use web_session::{Action, Asked, Event as Step, Session};

// A machine that reads requests, the reply that was begun last, the bytes that were sent, and the number of the
// operations seen.
#[derive(Drop)]
pub(crate) struct Connection {
    pub session: Session,
    pub plan: Option<Plan>,
    pub output: Bytes,
    pub seen: u64,
}

// Whether there is something, and room for it.
fn fits(count: u64, room: u64) -> bool
    ensures exact { result ≡ (nat_lt 0 count && nat_le count room) }
    ensures yes { result ≡ true → (0 < count) × (count ≤ room) }
{
    count > 0 && count <= room
}

// The next bytes of a reply.
fn piece_of(alloc: Global, plan: &Plan, from: u64, count: u64) -> Result<Bytes, NoMemory>
    requires { from + count ≤ length (bytes_of plan.now) }
    ensures { IfOk result (λ piece. piece ≡ take count (drop from (bytes_of plan.now))) }
{
    let mut items = vec![in alloc; 0u8; count as usize]?;
    plan.piece(from, items.as_mut_slice());
    Ok(Bytes { items })
}

impl Connection {
    // A session to which nothing happened.
    pub fn new(alloc: Global) -> Result<Connection, NoMemory>
        ensures { IfOk result (λ made. (proto : Proto) → IsShown proto [] made untouched) }
    {
        Ok(Connection {
            session: Session::new(alloc)?,
            plan: None,
            output: Bytes::new(alloc),
            seen: 0,
        })
    }

    // A reply is begun.
    fn begin(&mut self, plan: Plan)
        ensures session { self.new.session
            ≡ after_event self.old.session (step.Answer (length (bytes_of plan))) }
        ensures plan { self.new.plan ≡ Some plan }
        ensures output { self.new.output ≡ self.old.output }
        ensures seen { self.new.seen ≡ self.old.seen }
    {
        self.session.on(Step::Answer { len: plan.len() });
        drop(self.plan.replace(plan));
    }

    // What is to be done for the present request.
    fn order(&self, alloc: Global, asked: Asked, site: &Site) -> Result<Order, NoMemory>
        ensures { IfOk result (λ order. order
            ≡ order_of site.now (item_asked asked self.now.session.held)
            (ends_link self.now.session.phase self.now.session.before)) }
    {
        order(
            alloc,
            asked,
            self.session.target(),
            self.session.last(),
            site,
        )
    }

    // A refusal that is due is begun.
    fn settle(&mut self, alloc: Global, site: &Site) -> Result<(), NoMemory>
        ensures { OnOk result ((proto : Proto) (log : List Op) (s : SessionState) → proto.site ≡ site.now
            → Shows proto log self.old s → IsShown proto log self.new (begun proto log s)) }
    {
        let Action::Ask(asked) = self.session.on(Step::Start) else {
            return Ok(());
        };
        if let Order::Refused { fault, head, last } = self.order(alloc, asked, site)? {
            let plan = refusal(alloc, &fault, self.seen, head, last)?;
            self.begin(plan);
        }
        Ok(())
    }

    // The collection is looked at for the present request.
    fn look(&mut self, alloc: Global, edition: &Edition, revision: u64) -> Result<(), NoMemory>
        ensures { OnOk result ((log : List Op) (s : SessionState) (number : ℕ)
            → edition.now ≡ held_of edition.now.proto log → revision ≡ length log
            → IsShown edition.now.proto log self.old s
            → IsShown edition.now.proto log self.new (after edition.now.proto log (events.Look number) s)) }
    {
        let Action::Ask(asked) = self.session.on(Step::Start) else {
            return Ok(());
        };
        if let Order::Wanted(dap) = self.order(alloc, asked, &edition.proto().get().site)? {
            let plan = plan(alloc, edition, revision, &dap)?;
            self.seen = revision;
            self.begin(plan);
        }
        Ok(())
    }

    // Bytes are fed, as many as there is room for.
    fn feed(&mut self, alloc: Global, site: &Site, piece: &[u8]) -> Result<(), NoMemory>
        ensures { OnOk result ((proto : Proto) (log : List Op) (s : SessionState) (number : ℕ) → proto.site ≡ site.now
            → IsShown proto log self.old s
            → IsShown proto log self.new (after proto log (events.Bytes number piece.now) s)) }
    {
        let Action::Read(room) = self.session.on(Step::Start) else {
            return Ok(());
        };
        if !fits(piece.len() as u64, room as u64) {
            return Ok(());
        }
        self.session.on(Step::Bytes(piece));
        self.settle(alloc, site)
    }

    // Bytes of the present reply are sent.
    fn send(&mut self, alloc: Global, site: &Site, count: u64) -> Result<(), NoMemory>
        ensures { OnOk result ((proto : Proto) (log : List Op) (s : SessionState) (number : ℕ) → proto.site ≡ site.now
            → IsShown proto log self.old s
            → IsShown proto log self.new (after proto log (events.Sent number count) s)) }
    {
        let Action::Send { from } = self.session.on(Step::Start) else {
            return Ok(());
        };
        let Some(plan) = &self.plan else {
            return Ok(());
        };
        let left = plan.len().saturating_sub(from);
        if !fits(count, left) {
            return Ok(());
        }
        let piece = piece_of(alloc, plan, from, count)?;
        self.output.append(piece.as_slice())?;
        self.session.on(Step::Sent(count));
        self.settle(alloc, site)
    }

    // The session's input ends.
    fn end(&mut self)
        ensures { (proto : Proto) (log : List Op) (s : SessionState) (number : ℕ)
            → IsShown proto log self.old s → IsShown proto log self.new (after proto log (events.End number) s) }
    {
        if let Action::Read(_) = self.session.on(Step::Start) {
            self.session.on(Step::EndOfInput);
        }
    }

    // The session's link fails.
    fn fail(&mut self)
        ensures { (proto : Proto) (log : List Op) (s : SessionState) (number : ℕ)
            → IsShown proto log self.old s → IsShown proto log self.new (after proto log (events.Fault number) s) }
    {
        match self.session.on(Step::Start) {
            Action::Read(_) => {
                self.session.on(Step::Fault);
            }
            Action::Send { .. } => {
                self.session.on(Step::Fault);
            }
            _ => {}
        }
    }

    // The session learns the number of operations that were published.
    fn learn(&mut self, count: u64, published: u64)
        ensures { (proto : Proto) (log : List Op) (s : SessionState) (number : ℕ) → published ≡ length log
            → IsShown proto log self.old s
            → IsShown proto log self.new (after proto log (events.Learn number count) s) }
    {
        if count <= published {
            self.seen = self.seen.max(count);
        }
    }

    // An event of the session, over the edition that the published operations left.
    pub fn happen(
        &mut self,
        alloc: Global,
        edition: &Edition,
        published: u64,
        event: &Event,
    ) -> Result<(), NoMemory>
        ensures { OnOk result ((log : List Op) (s : SessionState) → edition.now ≡ held_of edition.now.proto log
            → published ≡ length log → IsShown edition.now.proto log self.old s
            → IsShown edition.now.proto log self.new (after edition.now.proto log event.now s)) }
    {
        let site = &edition.proto().get().site;
        match event {
            Event::Publish(_) => Ok(()),
            Event::Look(_) => self.look(alloc, edition, published),
            Event::Learn(_, count) => {
                self.learn(*count, published);
                Ok(())
            }
            Event::Bytes(_, piece) => self.feed(alloc, site, piece.as_slice()),
            Event::Sent(_, count) => self.send(alloc, site, *count),
            Event::End(_) => {
                self.end();
                Ok(())
            }
            Event::Fault(_) => {
                self.fail();
                Ok(())
            }
        }
    }
}
