//! Heads out of a stream of bytes.
ghost use Rattle.std.specs.Prelude.{◌≡◌, ◌+◌, ◌-◌, ◌≤◌, [], length, take, drop, min, IfOk};
ghost use Rattle.web_frame.specs.Cut.{after_blank};
ghost use Rattle.web_frame.specs.Items.{item_of};
ghost use Rattle.web_frame.specs.Stream as spec;

use crate::blank::skip_blank;
use crate::head::read_head;
use crate::limit::MAX_HEAD;
use crate::packed::PackedFrame;
use crate::request::Request;
use crate::unread::Unread;
use fm_base::{Bytes, NoMemory};
use httparse::spans::Span;
use std::alloc::Global;
use std::marker::Model;

/// What stands at the front of a stream.
#[derive(Clone, Copy, PartialEq, Eq)]
pub enum Next {
    /// No head ends in the bytes held, and there is room for more.
    Need,
    /// A head.
    Head(Request),
    /// Bytes that end as a head does, and that aren't one head of at most 64 lines.
    BadHead,
    /// No head ends in the first 16,384 bytes.
    HeadTooLong,
}

/// The bytes of a stream that no head was read from yet, and the head that was given last. It holds at most 16,384
/// bytes, and takes their memory once.
#[derive(Drop)]
pub struct Frame {
    // The head that was given last, and the bytes after it.
    unread: Unread,
    // How many bytes that head has, and where its target is.
    given: usize,
    target: Span,
}

impl Model for Frame {
    ghost use Rattle.std.specs.Prelude.{◌≡◌, ◌≤◌, length, take, drop};
    ghost use Rattle.httparse.specs.Spans.{IsWithin, span_bytes};
    ghost use Rattle.web_frame.specs.Items.{item_of};
    ghost use Rattle.web_frame.specs.Stream.{Held, target_in};

    ghost Value = { Held };

    ghost view = { λ f. record { head = take f.given f.unread; rest = drop f.given f.unread } };

    ghost invariant = { λ f. (f.given ≤ length f.unread)
        × IsWithin f.given f.target
        × (span_bytes (take f.given f.unread) f.target ≡ target_in (item_of (take f.given f.unread))) };
}

const NO_BYTES: Span = Span { start: 0, end: 0 };

impl Frame {
    #[tactic(auto, using(crate::proofs::HeadLemmas::item_of_nothing))]
    pub fn new(alloc: Global) -> Result<Frame, NoMemory>
        ensures { IfOk result (λ frame. frame ≡ record { head = []; rest = [] }) }
    {
        Ok(Frame {
            unread: Unread::new(alloc)?,
            given: 0,
            target: NO_BYTES,
        })
    }

    /// How many bytes can be fed.
    pub fn room(&self) -> usize
        ensures { result + spec.held_len self.now ≡ MAX_HEAD }
    {
        MAX_HEAD - self.unread.len()
    }

    /// Takes the first bytes of a piece, as many as there is room for, and returns their number.
    pub fn feed(&mut self, piece: &[u8]) -> usize
        ensures count { result ≡ min (length piece.now) (MAX_HEAD - spec.held_len self.old) }
        ensures held { self.new ≡ spec.with_bytes (take result piece.now) self.old }
    {
        self.unread.add(piece)
    }

    // Gives the first bytes as a head.
    fn give(&mut self, len: usize) -> Next
        requires none_given { self.old.head ≡ [] }
        requires fits { len ≤ length self.old.rest }
        ensures answer { result ≡ spec.next_by_item (item_of (take len self.old.rest)) }
        ensures held { self.new ≡ record {
          head = take len self.old.rest;
          rest = drop len self.old.rest;
        } }
    {
        match read_head(&self.unread.as_slice()[..len]) {
            None => {
                self.given = len;
                self.target = NO_BYTES;
                Next::BadHead
            }
            Some((request, target)) => {
                self.given = len;
                self.target = target;
                Next::Head(request)
            }
        }
    }

    /// Gives up the head of the call before, and looks for the next one.
    #[tactic(auto, using(crate::proofs::HeadLemmas::item_of_nothing), unfolding(crate::specs::Stream::next_of, crate::specs::Stream::held_after, crate::specs::Cut::cut_of))]
    pub fn next(&mut self) -> Next
        ensures answer { result ≡ spec.next_of self.old.rest }
        ensures held { self.new ≡ spec.held_after self.old.rest }
    {
        let given = self.given;
        self.given = 0;
        self.target = NO_BYTES;
        self.unread.skip(given);
        let held = self.unread.len();
        match self.unread.head_len() {
            Some(len) => self.give(len),
            None if held < MAX_HEAD => Next::Need,
            None => Next::HeadTooLong,
        }
    }

    /// The same bytes, in no more memory than they take.
    pub fn packed(&self, alloc: Global) -> Result<PackedFrame, NoMemory>
        ensures { IfOk result (λ packed. packed ≡ self.now) }
    {
        // No more is held than a head may have.
        let _held = self.unread.len();
        Ok(PackedFrame {
            bytes: Bytes::copy_of(alloc, self.unread.as_slice())?,
            given: self.given,
            target: self.target,
        })
    }

    /// Holds what is packed, in place of what it held.
    pub fn unpack(&mut self, packed: &PackedFrame)
        ensures { self.new ≡ packed.now }
    {
        self.unread.replace(packed.bytes.as_slice());
        self.given = packed.given;
        self.target = packed.target;
    }

    /// How many bytes of a head that hasn't ended are held: those after the head that was given last, without the empty
    /// lines before them.
    pub fn begun(&self) -> usize
        ensures { result ≡ length (after_blank self.now.rest) }
    {
        let (_, rest) = self.unread.as_slice().split_at(self.given);
        skip_blank(rest).len()
    }

    /// The target of the head that the last call to `next` gave, and no bytes where it gave none.
    pub fn target(&self) -> &[u8]
        ensures { result.now ≡ spec.target_in (item_of self.now.head) }
    {
        self.target.of(&self.unread.as_slice()[..self.given])
    }
}
