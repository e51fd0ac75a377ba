//! One log, the collection that it leaves, and many sessions.
ghost use Rattle.std.specs.Prelude.{◌≡◌, [], IfOk, List as Lists, OnOk, length, map, replicate};
ghost use Rattle.fm_model.specs.declared.op.Op.{Op as Operation};
ghost use Rattle.fm_edition.specs.Log.{held_of};
ghost use Rattle.fm_model.specs.Site.{IsPrototype};
ghost use Rattle.fm_edition.specs.Held.{OpFits};
ghost use Rattle.pub_core.specs.declared.connection.Connection.{Connection as Speaker};
ghost use Rattle.pub_core.specs.Happening.{after_at, happens, happens_to, published};
ghost use Rattle.pub_core.specs.Outcome.{outcome_of, EventFits};
ghost use Rattle.pub_core.specs.Shown.{AreShown};
ghost use Rattle.pub_core.specs.Machine.{IsMachine};
ghost use Rattle.pub_core.specs.World.{start, untouched, SessionState, World};

use crate::connection::Connection;
use crate::event::Event;
use crate::outcome::Outcome;
use fm_base::{Arc, Bytes, Fail, List, NoMemory};
use fm_edition::Edition;
use fm_model::{Op, Proto};
use std::alloc::Global;
use std::mem::replace;

// The operations that were published, what they leave, and the sessions.
#[derive(Drop)]
pub(crate) struct Machine {
    pub edition: Edition,
    pub log: List<Op>,
    pub connections: List<Connection>,
}

// New connections, one for each of the sessions.
fn untouched(alloc: Global, sessions: u32) -> Result<List<Connection>, NoMemory>
    ensures { IfOk result (λ made. (proto : _) → AreShown proto [] made (replicate sessions untouched)) }
{
    let mut made = List::new(alloc);
    for _ in 0..sessions {
        made.push(Connection::new(alloc)?)?;
    }
    Ok(made)
}

// The bytes that each session was sent.
fn outputs_of(alloc: Global, connections: &[Connection]) -> Result<List<Bytes>, NoMemory>
    ensures { IfOk result (λ outputs. outputs ≡ map (λ (c : Speaker). c.output) connections.now) }
{
    let mut outputs = List::new(alloc);
    for connection in connections {
        outputs.push(Bytes::copy_of(alloc, connection.output.as_slice())?)?;
    }
    Ok(outputs)
}

// How many operations each session has seen.
fn seen_by(alloc: Global, connections: &[Connection]) -> Result<List<u64>, NoMemory>
    ensures { IfOk result (λ seen. seen ≡ map (λ (c : Speaker). c.seen) connections.now) }
{
    let mut seen = List::new(alloc);
    for connection in connections {
        seen.push(connection.seen)?;
    }
    Ok(seen)
}

// What the sessions were sent, and what they have seen.
#[derive(Drop)]
struct Told {
    outputs: List<Bytes>,
    seen: List<u64>,
}

// The same of each session.
fn told_by(alloc: Global, connections: &[Connection]) -> Result<Told, NoMemory>
    ensures outputs { IfOk result (λ told. told.outputs ≡ map (λ (c : Speaker). c.output) connections.now) }
    ensures seen { IfOk result (λ told. told.seen ≡ map (λ (c : Speaker). c.seen) connections.now) }
{
    Ok(Told {
        outputs: outputs_of(alloc, connections)?,
        seen: seen_by(alloc, connections)?,
    })
}

// An event of the session of a number, if there is one.
fn happen_at(
    alloc: Global,
    connections: &mut [Connection],
    number: usize,
    edition: &Edition,
    published: u64,
    event: &Event,
) -> Result<(), NoMemory>
    ensures { OnOk result ((log : Lists Operation) (sessions : Lists SessionState)
        → edition.now ≡ held_of edition.now.proto log → published ≡ length log
        → AreShown edition.now.proto log connections.old sessions
        → AreShown edition.now.proto log connections.new
        (after_at edition.now.proto log sessions number event.now)) }
{
    if number >= connections.len() {
        return Ok(());
    }
    let connection = &mut connections[number];
    connection.happen(alloc, edition, published, event)
}

// The same, where the connections are a list.
fn happen_in(
    alloc: Global,
    connections: &mut List<Connection>,
    number: usize,
    edition: &Edition,
    published: u64,
    event: &Event,
) -> Result<(), NoMemory>
    ensures { OnOk result ((log : Lists Operation) (sessions : Lists SessionState)
        → edition.now ≡ held_of edition.now.proto log → published ≡ length log
        → AreShown edition.now.proto log connections.old sessions
        → AreShown edition.now.proto log connections.new
        (after_at edition.now.proto log sessions number event.now)) }
{
    let all = connections.items.as_mut_slice();
    happen_at(alloc, all, number, edition, published, event)
}

impl Machine {
    // A world to which nothing happened.
    pub fn new(alloc: Global, proto: Arc<Proto>, sessions: u32) -> Result<Machine, NoMemory>
        requires { IsPrototype proto }
        ensures { IfOk result (λ made. IsMachine proto made (start sessions)) }
    {
        let connections = untouched(alloc, sessions)?;
        let edition = Edition::empty(alloc, proto)?;
        Ok(Machine {
            edition,
            log: List::new(alloc),
            connections,
        })
    }

    // An operation is published, where nothing is full.
    fn publish(&mut self, alloc: Global, op: &Op) -> Result<(), NoMemory>
        requires { OpFits self.old.edition.proto op.now }
        ensures { OnOk result ((world : World) → IsMachine self.old.edition.proto self.old world
            → IsMachine self.old.edition.proto self.new (published world op.now)) }
    {
        match self.edition.after(alloc, op) {
            Ok(next) => {
                drop(replace(&mut self.edition, next));
                self.log.push(op.copy(alloc)?)?;
                Ok(())
            }
            Err(Fail::Fault(_)) => Ok(()),
            Err(Fail::NoMemory) => Err(NoMemory),
        }
    }

    // An event of a session.
    fn happen_to(&mut self, alloc: Global, number: u32, event: &Event) -> Result<(), NoMemory>
        ensures { OnOk result ((world : World) → IsMachine self.old.edition.proto self.old world
            → IsMachine self.old.edition.proto self.new (happens_to self.old.edition.proto world number event.now)) }
    {
        let published = self.log.len() as u64;
        let number = number as usize;
        happen_in(
            alloc,
            &mut self.connections,
            number,
            &self.edition,
            published,
            event,
        )
    }

    // An event.
    pub fn happen(&mut self, alloc: Global, event: &Event) -> Result<(), NoMemory>
        requires { EventFits self.old.edition.proto event.now }
        ensures { OnOk result ((world : World) → IsMachine self.old.edition.proto self.old world
            → IsMachine self.old.edition.proto self.new (happens self.old.edition.proto world event.now)) }
    {
        match event {
            Event::Publish(op) => self.publish(alloc, op),
            Event::Look(number) => self.happen_to(alloc, *number, event),
            Event::Learn(number, _) => self.happen_to(alloc, *number, event),
            Event::Bytes(number, _) => self.happen_to(alloc, *number, event),
            Event::Sent(number, _) => self.happen_to(alloc, *number, event),
            Event::End(number) => self.happen_to(alloc, *number, event),
            Event::Fault(number) => self.happen_to(alloc, *number, event),
        }
    }

    // The outcome of the run that led here.
    pub fn outcome(self, alloc: Global) -> Result<Outcome, NoMemory>
        ensures { IfOk result (λ outcome. (world : World) → IsMachine self.edition.proto self world
            → outcome ≡ outcome_of self.edition.proto world) }
    {
        let Machine {
            edition,
            log,
            connections,
        } = self;
        drop(edition);
        let told = told_by(alloc, connections.as_slice())?;
        Ok(Outcome {
            log,
            outputs: told.outputs,
            seen: told.seen,
        })
    }
}
