//! Bytes in which the end of a head is looked for.
ghost use Rattle.std.specs.Prelude.{◌≡◌, ◌-◌, ◌≤◌, [], ◌++◌, length, take, drop, min, IfOk};
ghost use Rattle.web_frame.specs.Cut as spec;

use crate::limit::MAX_HEAD;
use crate::scan::State;
use crate::store::Store;
use fm_base::NoMemory;
use std::alloc::Global;
use std::marker::Model;

// A buffer, how many of its bytes were looked at, and where that leaves a reader. Clauses see its bytes.
#[derive(Drop)]
pub(crate) struct Unread {
    store: Store,
    scanned: usize,
    state: State,
}

impl Model for Unread {
    ghost use Rattle.std.specs.Prelude.{ℕ, List, ◌≡◌, ◌≤◌, Some, length, take};
    ghost use Rattle.web_frame.specs.declared.scan.State.TheVariants.{Before};
    ghost use Rattle.web_frame.specs.Scan.{state_past};

    ghost Value = { List ℕ };

    ghost view = { λ u. u.store };

    ghost invariant = { λ u. (u.scanned ≤ length u.store)
        × (state_past Before (take u.scanned u.store) ≡ Some u.state) };
}

impl Unread {
    #[tactic(auto, unfolding(crate::specs::Scan::state_past))]
    pub fn new(alloc: Global) -> Result<Unread, NoMemory>
        ensures { IfOk result (λ unread. unread ≡ []) }
    {
        Ok(Unread {
            store: Store::new(alloc)?,
            scanned: 0,
            state: State::Before,
        })
    }

    pub fn len(&self) -> usize
        ensures len { result ≡ length self.now }
        ensures bound { result ≤ MAX_HEAD }
    {
        self.store.len()
    }

    pub fn as_slice(&self) -> &[u8]
        ensures { result.now ≡ self.now }
    {
        self.store.as_slice()
    }

    /// Adds the first of these bytes, as many as there is room for, and returns their number.
    pub fn add(&mut self, piece: &[u8]) -> usize
        ensures count { result ≡ min (length piece.now) (MAX_HEAD - length self.old) }
        ensures bytes { self.new ≡ self.old ++ take result piece.now }
    {
        self.store.add(piece)
    }

    /// Takes off the first bytes.
    #[tactic(auto, unfolding(crate::specs::Scan::state_past))]
    pub fn skip(&mut self, count: usize)
        requires { count ≤ length self.old }
        ensures { self.new ≡ drop count self.old }
    {
        if count > 0 {
            self.scanned = 0;
            self.state = State::Before;
            self.store.skip(count);
        }
    }

    /// Holds these bytes in place of those before.
    #[tactic(auto, unfolding(crate::specs::Scan::state_past))]
    pub fn replace(&mut self, piece: &[u8])
        requires { length piece.now ≤ MAX_HEAD }
        ensures { self.new ≡ piece.now }
    {
        self.scanned = 0;
        self.state = State::Before;
        self.store.replace(piece);
    }

    /// How many bytes the first head has, with the empty lines before it. No byte is looked at twice until bytes are
    /// taken off.
    pub fn head_len(&mut self) -> Option<usize>
        ensures len { result ≡ spec.head_len self.old }
        ensures same { self.new ≡ self.old }
    {
        let held = self.store.len();
        let (_, left) = self.store.as_slice().split_at(self.scanned);
        match self.state.find_end(left) {
            None => {
                self.scanned = held;
                None
            }
            Some(more) => {
                let len = self.scanned + more;
                self.scanned = 0;
                self.state = State::Before;
                Some(len)
            }
        }
    }
}
