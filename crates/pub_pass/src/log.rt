//! A beginning of the one log, as a token that no call takes away.
ghost use Rattle.std.specs.Prelude.{◌≡◌, ◌+◌, ◌≤◌, ◌++◌, ◌∷◌, ◌↔◌, [], length, IfSome, IsTrue, IsFalse};
ghost use Rattle.pub_look.specs.History.{Continues};
ghost use Rattle.pub_pass.specs.Book.{length_word};

use fm_model::Op;
use logbook::{Gain, Offer, Plain, Play, Rule, Seen, Start, Word};

/// The rule of the book.
pub struct Law;

impl Rule<Op, u64> for Law {
    ghost use Rattle.std.specs.Prelude.{[]};
    ghost use base.Fml.{ftrue};
    ghost use Rattle.pub_pass.specs.Book.{Counts};

    ghost holds = { λ cells log. Counts cells log };

    ghost first = { [] };

    ghost hinted = { λ n log. Unit {0} };

    ghost shows = { λ log. [] };

    ghost keeps = { λ names log. ftrue };

    ghost moves = { λ ask before after answer. Unit {0} };
}

// Nobody keeps anything beside the log.
pub struct Nothing;

impl Gain<Op, u64> for Nothing {
    ghost use base.Fml.{ftrue};

    ghost after = { λ names about answer. ftrue };
}

// The step that adds an operation.
pub struct Add;

impl Play<Op, u64> for Add {
    ghost use Rattle.pub_pass.specs.Book.{Adds};

    ghost then = { Adds };
}

impl Plain<Op, Op, u64> for Add {
    ghost use Rattle.std.specs.Prelude.{None};

    ghost ask = { λ op. op };

    ghost state = { λ op. None };
}

/// The word by which the log grows.
#[derive(Drop)]
pub struct Page {
    pub head: Word<Op, u64, Law>,
    pub ghost head_is: { head ≡ length_word head.book },
}

/// A beginning of the log, and its length.
#[derive(Drop)]
pub struct Front {
    len: u64,
    pub seen: Seen<Op, u64, Law>,
    pub ghost counted: { len ≡ length seen.log },
}

/// Opens an empty log.
pub fn open() -> (Page, Front)
    ensures log { result.1.seen.log ≡ [] }
    ensures book { result.0.head.book ≡ result.1.seen.book }
{
    let (seen, mut first, _second) = Seen::open(Start::alone(), 0, 0);
    let head = Word::tracked(0, &mut first);
    (Page { head }, Front { len: 0, seen })
}

impl Front {
    /// How many operations it has.
    pub fn len(&self) -> u64
        ensures { result ≡ length self.now.seen.log }
    {
        self.len
    }

    /// The same front once more.
    pub fn again(&self) -> Front
        ensures { result ≡ self.now }
    {
        Front {
            len: self.len,
            seen: self.seen.again(),
        }
    }

    // Whether the other front is as long or longer. Then it begins with this one.
    pub(crate) fn begins(&self, other: &Front) -> bool
        requires { self.now.seen.book ≡ other.now.seen.book }
        ensures length { IsTrue result ↔ (length self.now.seen.log ≤ length other.now.seen.log) }
        ensures begins { IsTrue result → Continues self.now.seen.log other.now.seen.log }
        ensures begun { IsFalse result → Continues other.now.seen.log self.now.seen.log }
    {
        let mut both = self.seen.again();
        both.learn(&other.seen);
        self.len <= other.len
    }

    /// The front with one more operation, which has this length; `None` where the log is longer than this front.
    pub fn grown(&self, page: &Page, op: &Op, len: u64) -> Option<Front>
        requires book { page.now.head.book ≡ self.now.seen.book }
        requires one_more { len ≡ length self.now.seen.log + 1 }
        ensures log { IfSome result (λ front. front.seen.log ≡ self.now.seen.log ++ op.now ∷ []) }
        ensures book { IfSome result (λ front. front.seen.book ≡ self.now.seen.book) }
    {
        let mut seen = self.seen.again();
        let mut offer: Offer<Op, u64, Law, Nothing> = seen.plain::<Nothing, Op, Add>(op);
        let mut pen = seen.no_pen();
        let found = page
            .head
            .compare_exchange::<Add, Nothing>(self.len, len, &mut seen, &mut offer, &mut pen);
        if found != self.len {
            return None;
        }
        Some(Front { len, seen })
    }
}
