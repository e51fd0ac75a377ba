//! An inbox in memory.
ghost use Rattle.std.specs.Prelude.{◌≡◌, ◌≤◌, IfOk, IfSome, Some, drop, length, option_map};
ghost use Rattle.dev_memory.specs.Memory.{held};
ghost use Rattle.dev_traits.specs.Inbox.{fresh_post, inbox_lines};
ghost use Rattle.dev_traits.specs.Opener.{inbox_asked};

use crate::calls::Calls;
use crate::lines::Lines;
use crate::mem_files::{Entry, look_up};
use dev_traits::{Arrival, Failed, Found, Inbox, Verdict};
use fm_base::{Bytes, Fail, List, NoMemory};
use std::alloc::Global;

/// An inbox in memory, with the names that are to come, the files that lie there, and room for a verdict on each name.
/// It is never idle. It keeps its lines, as long as memory lasts.
#[derive(Drop)]
pub struct MemInbox {
    alloc: Global,
    asked: Option<Bytes>,
    names: List<Bytes>,
    given: usize,
    last: Option<Bytes>,
    files: List<Entry>,
    verdicts: Vec<Verdict>,
    lines: Lines,
    calls: Calls,
    ghost within: { given ≤ length names },
}

impl MemInbox {
    /// An inbox with these names to come and these files. The calls with these numbers, counted together from 1, fail.
    pub fn new(
        alloc: Global,
        names: List<Bytes>,
        files: List<Entry>,
        failing: List<u64>,
    ) -> Result<MemInbox, NoMemory>
        ensures shown { IfOk result (λ inbox. ⟦<MemInbox as Inbox>⟧.shown inbox
            ≡ record { held = Some (fresh_post names (held files)); faults = 0 }) }
    {
        let verdicts = Vec::with_capacity(alloc, names.len())?;
        Ok(MemInbox {
            alloc,
            asked: None,
            names,
            given: 0,
            last: None,
            files,
            verdicts,
            lines: Lines::none(alloc),
            calls: Calls::new(failing),
        })
    }

    // The same inbox, opened with this folder.
    pub(crate) fn asked_with(self, folder: Bytes) -> MemInbox
        ensures { ⟦<MemInbox as Inbox>⟧.shown result ≡ inbox_asked folder (⟦<MemInbox as Inbox>⟧.shown self) }
    {
        let mut inbox = self;
        inbox.asked = Some(folder);
        inbox
    }

    /// The verdicts, in order.
    pub fn verdicts(&self) -> &[Verdict]
        ensures { IfSome (⟦<MemInbox as Inbox>⟧.shown self.now).held (λ post. result.now ≡ post.verdicts) }
    {
        self.verdicts.as_slice()
    }

    /// The lines, in order, where none was lost.
    pub fn lines(&self) -> Option<&[Bytes]>
        ensures { option_map (λ lines. lines.now) result ≡ inbox_lines (⟦<MemInbox as Inbox>⟧.shown self.now).held }
    {
        match &self.lines.told {
            Some(lines) => Some(lines.as_slice()),
            None => None,
        }
    }
}

impl Inbox for MemInbox {
    ghost shown = { λ inbox. record {
      held = Some (record {
        asked = inbox.asked;
        left = drop inbox.given inbox.names;
        last = inbox.last;
        content = held inbox.files;
        verdicts = inbox.verdicts.items;
        lines = inbox.lines.told;
      });
      faults = inbox.calls.faults;
    } };

    fn faults(&self) -> u64 {
        self.calls.faults
    }

    fn next(&mut self, alloc: Global) -> Result<Arrival, Fail<Failed>> {
        if self.calls.due() {
            return Err(Fail::Fault(self.calls.fail()));
        }
        let Some(name) = self.names.as_slice().get(self.given) else {
            return Ok(Arrival::Done);
        };
        let (name, last) = two_copies(alloc, name.as_slice())?;
        self.given += 1;
        self.last = Some(last);
        Ok(Arrival::Name(name))
    }

    fn fetch(&mut self, alloc: Global, name: &[u8], limit: u64) -> Result<Found, Fail<Failed>> {
        if self.calls.due() {
            return Err(Fail::Fault(self.calls.fail()));
        }
        Ok(look_up(alloc, self.files.as_slice(), name, limit)?)
    }

    fn settle(&mut self, _name: &[u8], verdict: Verdict) -> Result<(), Failed> {
        if self.calls.due() || self.verdicts.len() >= self.verdicts.capacity() {
            return Err(self.calls.fail());
        }
        self.verdicts.push_reserved(verdict);
        Ok(())
    }

    fn note(&mut self, line: &[&[u8]]) {
        self.lines.note(self.alloc, line);
    }
}

// The same bytes twice.
fn two_copies(alloc: Global, bytes: &[u8]) -> Result<(Bytes, Bytes), NoMemory>
    ensures { IfOk result (λ made. (made.0 ≡ bytes.now) × (made.1 ≡ bytes.now)) }
{
    let first = List::copy_of(alloc, bytes)?;
    let second = List::copy_of(alloc, bytes)?;
    Ok((first, second))
}
