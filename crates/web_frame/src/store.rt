//! A buffer that bytes are added to at its end and taken off at its front.
ghost use Rattle.std.specs.Prelude.{◌≡◌, ◌+◌, ◌-◌, ◌≤◌, [], ◌++◌, length, take, drop, min, slice_range, IfOk};

use crate::limit::MAX_HEAD;
use fm_base::NoMemory;
use std::alloc::Global;
use std::marker::Model;

// At most as many bytes as a head may have. Clauses see them as a list.
#[derive(Drop)]
pub(crate) struct Store {
    bytes: Vec<u8>,
    start: usize,
    end: usize,
}

impl Model for Store {
    ghost use Rattle.std.specs.Prelude.{ℕ, List, ◌≡◌, ◌≤◌, slice_range, length};
    ghost use Rattle.web_frame.specs.declared.limit.TheConstants.{MAX_HEAD};

    ghost Value = { List ℕ };

    ghost view = { λ s. slice_range s.bytes.items s.start s.end };

    ghost invariant = { λ s. (s.start ≤ s.end) × (s.end ≤ MAX_HEAD) × (length s.bytes.items ≡ MAX_HEAD) };
}

// Moves the bytes from `start` to `end` to the front, and returns where they end there.
fn to_front(bytes: &mut [u8], start: usize, end: usize) -> usize
    requires ordered { start ≤ end }
    requires within { end ≤ length bytes.old }
    ensures end { result ≡ end - start }
    ensures bytes { slice_range bytes.new 0 result ≡ slice_range bytes.old start end }
    ensures len { length bytes.new ≡ length bytes.old }
{
    if start > 0 {
        bytes.copy_within(start..end, 0);
    }
    end - start
}

// Writes bytes over those from `at` on.
fn put_at(bytes: &mut [u8], at: usize, piece: &[u8])
    requires { at + length piece.now ≤ length bytes.old }
    ensures bytes { slice_range bytes.new 0 (at + length piece.now) ≡ slice_range bytes.old 0 at ++ piece.now }
    ensures len { length bytes.new ≡ length bytes.old }
{
    bytes[at..at + piece.len()].copy_from_slice(piece);
}

impl Store {
    pub fn new(alloc: Global) -> Result<Store, NoMemory>
        ensures { IfOk result (λ s. s ≡ []) }
    {
        let bytes = vec![in alloc; 0u8; MAX_HEAD]?;
        Ok(Store {
            bytes,
            start: 0,
            end: 0,
        })
    }

    pub fn len(&self) -> usize
        ensures len { result ≡ length self.now }
        ensures bound { result ≤ MAX_HEAD }
    {
        self.end - self.start
    }

    pub fn as_slice(&self) -> &[u8]
        ensures { result.now ≡ self.now }
    {
        &self.bytes[self.start..self.end]
    }

    /// Adds the first of these bytes, as many as there is room for, and returns their number.
    pub fn add(&mut self, piece: &[u8]) -> usize
        ensures count { result ≡ min (length piece.now) (MAX_HEAD - length self.old) }
        ensures bytes { self.new ≡ self.old ++ take result piece.now }
    {
        self.end = to_front(self.bytes.as_mut_slice(), self.start, self.end);
        self.start = 0;
        let count = piece.len().min(MAX_HEAD - self.end);
        put_at(self.bytes.as_mut_slice(), self.end, &piece[..count]);
        self.end += count;
        count
    }

    /// Takes off the first bytes.
    pub fn skip(&mut self, count: usize)
        requires { count ≤ length self.old }
        ensures { self.new ≡ drop count self.old }
    {
        self.start += count;
    }

    /// Holds these bytes in place of those before.
    pub fn replace(&mut self, piece: &[u8])
        requires { length piece.now ≤ MAX_HEAD }
        ensures { self.new ≡ piece.now }
    {
        put_at(self.bytes.as_mut_slice(), 0, piece);
        self.start = 0;
        self.end = piece.len();
    }
}
