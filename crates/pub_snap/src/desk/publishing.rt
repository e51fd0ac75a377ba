//! Adding operations to the log of a desk.
ghost use Rattle.std.specs.Prelude.{◌≡◌, ◌+◌, ◌∷◌, [], ◌++◌, length, IfOk, None, OnErr, OnOk, Some, if◌then◌else◌};
ghost use Rattle.fm_base.specs.Answer.{Answers};
ghost use Rattle.fm_model.specs.declared.op.Op.TheVariants as ops;
ghost use Rattle.fm_model.specs.Collection.{coll, full_at, holds, holds_older};
ghost use Rattle.fm_edition.specs.Held.{unless_full, OpFits};
ghost use Rattle.pub_look.specs.History.{Keeps};

use super::Desk;
use crate::share::Share;
use crate::swap::{catch_up, make_room, show};
use fm_base::{Arc, Bytes, Fail, NoMemory};
use fm_edition::Edition;
use fm_model::{Full, Op};
use pub_pass::{Name, Receipt, Shown};
use std::alloc::Global;
use std::sync::Wait;

impl<N: Name> Desk<N> {
    /// Publishes an operation as the last in the log, and returns the log, or the limit that it would pass. An `Err`
    /// changes nothing. It waits for readers that are inside a copy that it changes, and what the operation took out is
    /// then held by no copy.
    pub fn publish<R: Wait>(
        &mut self,
        alloc: Global,
        rt: &R,
        share: &mut Share<N>,
        op: Op,
    ) -> Result<Receipt<N>, Fail<Full>>
        requires { OpFits N.proto op }
        ensures answer { Answers
            (unless_full (full_at (coll self.old) op) (self.old ++ op ∷ [])) result }
        ensures ok { OnOk result (self.new ≡ self.old ++ op ∷ []) }
        ensures counted { OnOk result (share.new ≡ share.old + 1) }
        ensures err { OnErr result (self.new ≡ self.old) }
        ensures uncounted { OnErr result (share.new ≡ share.old) }
    {
        let edition = self.edition().after(alloc, &op)?;
        let edition = Arc::new(alloc, edition)?;
        let receipt = self.put(rt, share, edition, &op)?;
        Ok(receipt)
    }

    /// Publishes that the runs below a cutoff go, in seconds from the collection's epoch, and returns the log. `None`,
    /// and nothing changed, where no held file is of such a run. An `Err` changes nothing. It waits as `publish` does.
    pub fn expire<R: Wait>(
        &mut self,
        alloc: Global,
        rt: &R,
        share: &mut Share<N>,
        cutoff: i64,
    ) -> Result<Option<Receipt<N>>, NoMemory>
        ensures answer { IfOk result (λ receipt. receipt
            ≡ (if holds_older (coll self.old) cutoff then Some (self.old ++ ops.Expire cutoff ∷ []) else None)) }
        ensures ok { OnOk result
            (self.new ≡ (if holds_older (coll self.old) cutoff then self.old ++ ops.Expire cutoff ∷ [] else self.old)) }
        ensures counted { OnOk result
            (share.new ≡ (if holds_older (coll self.old) cutoff then share.old + 1 else share.old)) }
        ensures err { OnErr result (self.new ≡ self.old) }
        ensures uncounted { OnErr result (share.new ≡ share.old) }
    {
        if !self.edition().older_than(cutoff) {
            return Ok(None);
        }
        let receipt = self.take_out(alloc, rt, share, Op::Expire(cutoff))?;
        Ok(Some(receipt))
    }

    /// Publishes that the file of a name goes, and returns the log. `None`, and nothing changed, where no held file has
    /// the name. An `Err` changes nothing. It waits as `publish` does.
    pub fn retract<R: Wait>(
        &mut self,
        alloc: Global,
        rt: &R,
        share: &mut Share<N>,
        name: &[u8],
    ) -> Result<Option<Receipt<N>>, NoMemory>
        ensures answer { IfOk result (λ receipt. receipt
            ≡ (if holds (coll self.old) name.now then Some (self.old ++ ops.Retract name.now ∷ []) else None)) }
        ensures ok { OnOk result
            (self.new ≡ (if holds (coll self.old) name.now then self.old ++ ops.Retract name.now ∷ [] else self.old)) }
        ensures counted { OnOk result
            (share.new ≡ (if holds (coll self.old) name.now then share.old + 1 else share.old)) }
        ensures err { OnErr result (self.new ≡ self.old) }
        ensures uncounted { OnErr result (share.new ≡ share.old) }
    {
        if !self.edition().holds(name) {
            return Ok(None);
        }
        let name = Bytes::copy_of(alloc, name)?;
        let receipt = self.take_out(alloc, rt, share, Op::Retract(name))?;
        Ok(Some(receipt))
    }

    // Publishes an operation that passes no limit.
    fn take_out<R: Wait>(
        &mut self,
        alloc: Global,
        rt: &R,
        share: &mut Share<N>,
        op: Op,
    ) -> Result<Receipt<N>, NoMemory>
        requires fits { OpFits N.proto op }
        requires within { full_at (coll self.old) op ≡ None }
        ensures receipt { IfOk result (λ receipt. receipt ≡ self.old ++ op ∷ []) }
        ensures ok { OnOk result (self.new ≡ self.old ++ op ∷ []) }
        ensures counted { OnOk result (share.new ≡ share.old + 1) }
        ensures err { OnErr result (self.new ≡ self.old) }
        ensures uncounted { OnErr result (share.new ≡ share.old) }
    {
        match self.publish(alloc, rt, share, op) {
            Ok(receipt) => Ok(receipt),
            Err(Fail::NoMemory) => Err(NoMemory),
            Err(Fail::Fault(_)) => unreachable!(),
        }
    }

    // Adds an operation to the log, shows the edition after it, and then has the other copy hold it too. All memory is
    // asked for before the log grows; once the log has the operation, nothing fails any more.
    fn put<R: Wait>(
        &mut self,
        rt: &R,
        share: &mut Share<N>,
        edition: Arc<Edition>,
        op: &Op,
    ) -> Result<Receipt<N>, NoMemory>
        requires next { Keeps edition (self.old ++ op.now ∷ []) }
        requires over { edition.proto ≡ N.proto }
        ensures receipt { IfOk result (λ receipt. receipt ≡ self.old ++ op.now ∷ []) }
        ensures ok { OnOk result (self.new ≡ self.old ++ op.now ∷ []) }
        ensures counted { OnOk result (share.new ≡ share.old + 1) }
        ensures err { OnErr result (self.new ≡ self.old) }
        ensures uncounted { OnErr result (share.new ≡ share.old) }
    {
        self.make_room(rt)?;
        let revision = mark(&mut self.marks)?;
        let Some(front) = self.front.grown(&self.page, op, revision) else {
            self.marks.items.pop();
            return Err(NoMemory);
        };
        show(rt, &mut self.board, Shown::of(edition, front.again()));
        self.front = front;
        share.add(&mut self.total);
        self.let_go(rt);
        Ok(self.receipt())
    }

    // Asks for the room of one more copy, where there is none yet.
    fn make_room<R: Wait>(&mut self, rt: &R) -> Result<(), NoMemory>
        ensures { self.new ≡ self.old }
    {
        if !self.level {
            make_room(rt, &mut self.board)?;
            self.level = true;
        }
        Ok(())
    }

    // Has the other copy hold what readers see, so that what the last operation took out is held by none.
    fn let_go<R: Wait>(&mut self, rt: &R)
        ensures { self.new ≡ self.old }
    {
        self.level = catch_up(rt, &mut self.board).is_ok();
    }
}

// One more byte. The answer is how many there are then.
fn mark(marks: &mut Bytes) -> Result<u64, NoMemory>
    ensures ok { IfOk result (λ count. (count ≡ length marks.old + 1) × (length marks.new ≡ count)) }
    ensures err { OnErr result (marks.new ≡ marks.old) }
{
    marks.push(0)?;
    Ok(marks.len() as u64)
}
