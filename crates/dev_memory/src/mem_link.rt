//! A link in memory.
ghost use Rattle.std.specs.Prelude.{⊤, ◌≡◌, ◌+◌, ◌^◌, ◌<◌, ◌≤◌, min, length, take, drop, Some, IfSome, IfOk};
ghost use Rattle.dev_traits.specs.Link.{fresh_wire, wire_at};

use crate::calls::Calls;
use crate::room::Room;
use dev_traits::{Failed, Link, Sent, Taken};
use fm_base::{Bytes, List, NoMemory};
use std::alloc::Global;

/// An offset in the input, and how many bytes must have been put before the bytes from there on are given.
#[derive(Clone, Copy)]
pub struct Hold {
    pub offset: usize,
    pub put: usize,
}

/// A link in memory that blocks: input that is given, and output with room that was made beforehand. A put with no room
/// left fails, and a put for which there is some room takes what fits.
#[derive(Drop)]
pub struct MemLink {
    /// How many bytes one take gives at most; 0 stands for 1.
    pub most_taken: usize,
    /// How many bytes one put takes at most; 0 stands for 1.
    pub most_put: usize,
    /// Input that waits for output.
    pub hold: Option<Hold>,
    input: Bytes,
    taken: usize,
    output: Room,
    calls: Calls,
    ghost within: { taken ≤ length input },
}

impl MemLink {
    ghost use Rattle.dev_memory.specs.Memory.{link_room, link_failing};

    /// A link with this input and room for `room` bytes of output. The calls with these numbers, takes and puts
    /// counted together from 1, fail.
    pub fn new(
        alloc: Global,
        input: Bytes,
        room: usize,
        failing: List<u64>,
    ) -> Result<MemLink, NoMemory>
        ensures shown { IfOk result (λ link.
            ⟦<MemLink as Link>⟧.shown link ≡ record { held = Some (fresh_wire input); faults = 0 }) }
        ensures room { IfOk result (λ link. link_room link ≡ room) }
        ensures failing { IfOk result (λ link. link_failing link ≡ failing) }
    {
        let output = Room::new(alloc, room)?;
        Ok(MemLink {
            most_taken: usize::MAX,
            most_put: usize::MAX,
            hold: None,
            input,
            taken: 0,
            output,
            calls: Calls::new(failing),
        })
    }

    /// The same link, of which one take gives at most `most_taken` bytes and one put takes at most `most_put`; 0
    /// stands for 1.
    pub fn in_pieces(self, most_taken: usize, most_put: usize) -> MemLink
        ensures { result ≡ record self { most_taken = most_taken; most_put = most_put } }
    {
        let mut link = self;
        link.most_taken = most_taken;
        link.most_put = most_put;
        link
    }

    /// The same link, which gives the bytes of its input from `offset` on only once `put` bytes were put. A take that
    /// comes there too early fails.
    pub fn held_back(self, offset: usize, put: usize) -> MemLink
        ensures { result ≡ record self { hold = Some (record { offset = offset; put = put }) } }
    {
        let mut link = self;
        link.hold = Some(Hold { offset, put });
        link
    }

    /// The bytes that were put.
    pub fn output(&self) -> &[u8]
        ensures { IfSome (⟦<MemLink as Link>⟧.shown self.now).held (λ wire. result.now ≡ wire.put) }
    {
        self.output.bytes.as_slice()
    }

    /// The bytes that are left to be taken.
    pub fn left(&self) -> &[u8]
        ensures { IfSome (⟦<MemLink as Link>⟧.shown self.now).held (λ wire. result.now ≡ wire.left) }
    {
        self.rest()
    }

    // How many bytes were taken.
    pub(crate) fn taken(&self) -> usize {
        self.taken
    }

    fn rest(&self) -> &[u8]
        ensures bytes { result.now ≡ drop self.now.taken self.now.input }
        ensures fits { self.now.taken + length result.now < 2 ^ 64 }
    {
        let (_, rest) = self.input.as_slice().split_at(self.taken);
        rest
    }

    // How many bytes one take may give now. 0 says that it comes too early.
    fn allowed(&self) -> usize {
        let most = self.most_taken.max(1);
        match self.hold {
            Some(hold) if self.output.bytes.len() < hold.put => {
                most.min(hold.offset.saturating_sub(self.taken))
            }
            _ => most,
        }
    }
}

impl Link for MemLink {
    ghost shown = { λ link. record {
      held = Some (wire_at link.input link.taken link.output.bytes.items);
      faults = link.calls.faults;
    } };

    ghost blocks = { ⊤ };

    fn faults(&self) -> u64 {
        self.calls.faults
    }

    fn take(&mut self, buf: &mut [u8]) -> Result<Taken, Failed> {
        if self.calls.due() {
            return Err(self.calls.fail());
        }
        let most = self.allowed();
        if most == 0 {
            return Err(self.calls.fail());
        }
        let count = copy_front(self.rest(), most, buf);
        if count == 0 {
            return Ok(Taken::End);
        }
        self.taken += count;
        Ok(Taken::Bytes(count))
    }

    fn put(&mut self, bytes: &[u8]) -> Result<Sent, Failed> {
        if self.calls.due() {
            return Err(self.calls.fail());
        }
        let (front, _) = bytes.split_at(self.most_put.max(1).min(bytes.len()));
        let count = self.output.append(front);
        if count == 0 {
            return Err(self.calls.fail());
        }
        Ok(Sent::Bytes(count))
    }
}

// Copies at most `most` bytes to the front of `into`, as many as there are and fit, and returns how many.
fn copy_front(from: &[u8], most: usize, into: &mut [u8]) -> usize
    ensures count { result ≡ min most (min (length from.now) (length into.old)) }
    ensures bytes { take result into.new ≡ take result from.now }
{
    let count = most.min(from.len().min(into.len()));
    let (source, _) = from.split_at(count);
    let (target, _) = into.split_at_mut(count);
    target.copy_from_slice(source);
    count
}
