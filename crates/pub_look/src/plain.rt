//! A collection without threads, which publishes and looks.
ghost use Rattle.std.specs.Prelude.{◌≡◌, ◌+◌, [], IfOk, None, OnErr, OnOk, Some, length, true, if◌then◌else◌};
ghost use Rattle.fm_base.specs.Answer.{Answers};
ghost use Rattle.fm_model.specs.declared.op.Op.TheVariants as ops;
ghost use Rattle.fm_model.specs.Collection.{coll, full_at, holds, holds_older, tally};
ghost use Rattle.fm_model.specs.Site.{IsPrototype};
ghost use Rattle.fm_edition.specs.Held.{unless_full, OpFits};
ghost use Rattle.pub_look.specs.History.{with_op};

use crate::look::Look;
use crate::query::Query;
use fm_base::{Arc, Bytes, Fail, List, NoMemory};
use fm_edition::Edition;
use fm_model::{Full, Op, Proto, Tally};
use std::alloc::Global;
use std::marker::Model;

/// A collection with all operations that were published in it, and how many there were at each look.
#[derive(Drop)]
pub struct Plain {
    edition: Edition,
    ops: List<Op>,
    looks: List<u64>,
}

impl Model for Plain {
    ghost use Rattle.pub_look.specs.History.{History, Keeps};

    ghost Value = { History };

    ghost view = { λ plain. record { proto = plain.edition.proto; seen = plain.ops; looks = plain.looks } };

    ghost invariant = { λ plain. Keeps plain.edition plain.ops };
}

impl Plain {
    /// The empty collection over a prototype.
    pub fn open(alloc: Global, proto: Arc<Proto>) -> Result<Plain, NoMemory>
        requires { IsPrototype proto }
        ensures { IfOk result (λ plain. plain ≡ record { proto = proto; seen = []; looks = [] }) }
    {
        let edition = Edition::empty(alloc, proto)?;
        Ok(Plain {
            edition,
            ops: List::new(alloc),
            looks: List::new(alloc),
        })
    }

    /// Publishes an operation, and returns its revision, which is the number of all that were published; or what there
    /// would be too many of. An `Err` changes nothing.
    pub fn publish(&mut self, alloc: Global, op: Op) -> Result<u64, Fail<Full>>
        requires { OpFits self.old.proto op }
        ensures answer { Answers
            (unless_full (full_at (coll self.old.seen) op) (length self.old.seen + 1)) result }
        ensures ok { OnOk result (self.new ≡ with_op self.old op) }
        ensures err { OnErr result (self.new ≡ self.old) }
    {
        let next = self.edition.after(alloc, &op)?;
        self.ops.push(op)?;
        self.edition = next;
        Ok(self.ops.len() as u64)
    }

    /// Publishes that the runs below a cutoff go, in seconds from the collection's epoch, and returns the revision.
    /// `None`, and nothing changed, where no held file is of such a run. An `Err` changes nothing.
    pub fn expire(&mut self, alloc: Global, cutoff: i64) -> Result<Option<u64>, NoMemory>
        ensures revision { IfOk result (λ revision.
            revision ≡ (if holds_older (coll self.old.seen) cutoff then Some (length self.old.seen + 1) else None)) }
        ensures ok { OnOk result
            (self.new ≡ (if holds_older (coll self.old.seen) cutoff
            then with_op self.old (ops.Expire cutoff)
            else self.old)) }
        ensures err { OnErr result (self.new ≡ self.old) }
    {
        if !self.edition.older_than(cutoff) {
            return Ok(None);
        }
        let revision = self.take_out(alloc, Op::Expire(cutoff))?;
        Ok(Some(revision))
    }

    /// Publishes that the file of a name goes, and returns the revision. `None`, and nothing changed, where no held
    /// file has the name. An `Err` changes nothing.
    pub fn retract(&mut self, alloc: Global, name: &[u8]) -> Result<Option<u64>, NoMemory>
        ensures revision { IfOk result (λ revision.
            revision ≡ (if holds (coll self.old.seen) name.now then Some (length self.old.seen + 1) else None)) }
        ensures ok { OnOk result
            (self.new ≡ (if holds (coll self.old.seen) name.now
            then with_op self.old (ops.Retract name.now)
            else self.old)) }
        ensures err { OnErr result (self.new ≡ self.old) }
    {
        if !self.edition.holds(name) {
            return Ok(None);
        }
        let name = Bytes::copy_of(alloc, name)?;
        let revision = self.take_out(alloc, Op::Retract(name))?;
        Ok(Some(revision))
    }

    /// How much is held.
    pub fn tally(&self) -> Tally
        ensures { result ≡ tally (coll self.now.seen) }
    {
        self.edition.tally()
    }

    // Publishes an operation that passes no limit.
    fn take_out(&mut self, alloc: Global, op: Op) -> Result<u64, NoMemory>
        requires fits { OpFits self.old.proto op }
        requires within { full_at (coll self.old.seen) op ≡ None }
        ensures revision { IfOk result (λ revision. revision ≡ length self.old.seen + 1) }
        ensures ok { OnOk result (self.new ≡ with_op self.old op) }
        ensures err { OnErr result (self.new ≡ self.old) }
    {
        match self.publish(alloc, op) {
            Ok(revision) => Ok(revision),
            Err(Fail::NoMemory) => Err(NoMemory),
            Err(Fail::Fault(_)) => unreachable!(),
        }
    }
}

#[tactic(auto, using(crate::proofs::HistoryLemmas::continues_itself))]
impl Look for Plain {
    ghost proto = { λ plain. plain.proto };

    ghost still = { λ _. true };

    ghost log = { λ plain. plain.seen };

    ghost looks = { λ plain. plain.looks };

    fn seen(&self) -> u64 {
        self.ops.len() as u64
    }

    fn ask<Q: Query>(&mut self, alloc: Global, query: &Q) -> Result<(Q::Out, u64), NoMemory> {
        let revision = self.ops.len() as u64;
        self.looks.push(revision)?;
        let out = query.answer(alloc, &self.edition, revision)?;
        Ok((out, revision))
    }
}
