//! An inbox in which files arrive.
ghost use Rattle.std.specs.Prelude.{◌≡◌, IfOk, IfSome, OnErr, OnOk, Some};
ghost use Rattle.std.specs.List.{flat_map};
ghost use Rattle.dev_traits.specs.Cause.{HasCause, HasReadCause};
ghost use Rattle.dev_traits.specs.Files.{KeepsLimit, found_of};
ghost use Rattle.dev_traits.specs.Inbox.{
  InboxShown,
  IsNext,
  after_next,
  after_settle,
  inbox_lines,
  with_lines,
};
ghost use Rattle.dev_traits.specs.Lines.{Notes};

use crate::faults::Failed;
use crate::files::Found;
use fm_base::{Bytes, Fail};
use std::alloc::Global;

/// What an inbox has next.
#[derive(Drop)]
pub enum Arrival {
    /// The name of a file that arrived.
    Name(Bytes),
    /// Nothing yet.
    Idle,
    /// Nothing any more. An inbox that has said so is asked no more.
    Done,
}

/// What was found of a name that arrived.
#[derive(Clone, Copy, Debug)]
pub enum Verdict {
    /// The number, from 1, of the operation that it became.
    Published(u64),
    /// The number of the reason why the file was refused.
    Refused(u16),
    /// The number of operations after which there was no room for the file.
    Full(u64),
    /// The number of operations after which no file of the name to take back was held.
    NotHeld(u64),
    /// There was no file that could be read.
    Gone,
    /// Memory ran out.
    Short,
}

/// An inbox in which files arrive by their names.
pub trait Inbox {
    /// The names left to come, the name given last, the content of each name, the verdicts and the lines, where
    /// they are known, and how many calls have failed.
    ghost shown: { Self → InboxShown };

    /// How many calls have failed. The count stands still at its greatest number.
    fn faults(&self) -> u64
        ensures { result ≡ (shown self.now).faults };

    /// What arrives next. It may wait for a while before it says that nothing came.
    fn next(&mut self, alloc: Global) -> Result<Arrival, Fail<Failed>>
        ensures next { IfSome (shown self.old).held (λ post. IfOk result (IsNext post)) }
        ensures taken { IfOk result (λ arrival.
            (shown self.new).held ≡ after_next arrival (shown self.old).held) }
        ensures err { OnErr result ((shown self.new).held ≡ (shown self.old).held) }
        ensures cause { HasReadCause (shown self.old).faults (shown self.new).faults result };

    /// The file of a name, where it has at most `limit` bytes.
    fn fetch(&mut self, alloc: Global, name: &[u8], limit: u64) -> Result<Found, Fail<Failed>>
        ensures found { IfSome (shown self.old).held (λ post.
            IfOk result (λ found. found ≡ found_of limit (post.content name.now))) }

        // Also where no content is known.
        ensures limit { IfOk result (KeepsLimit limit) }
        ensures same { (shown self.new).held ≡ (shown self.old).held }
        ensures cause { HasReadCause (shown self.old).faults (shown self.new).faults result };

    /// Takes the verdict on the name given last. It takes no memory. What the verdict asks for may be done later.
    fn settle(&mut self, name: &[u8], verdict: Verdict) -> Result<(), Failed>
        requires last { IfSome (shown self.old).held (λ post. post.last ≡ Some name.now) }
        ensures ok { OnOk result ((shown self.new).held ≡ after_settle verdict (shown self.old).held) }
        ensures err { OnErr result ((shown self.new).held ≡ (shown self.old).held) }
        ensures cause { HasCause (shown self.old).faults (shown self.new).faults result };

    /// Takes a line of the journal, in slices and without its end. It may lose it, and doesn't wait for it to be
    /// written.
    fn note(&mut self, line: &[&[u8]])
        ensures same { (shown self.new).held
            ≡ with_lines (inbox_lines (shown self.new).held) (shown self.old).held }
        ensures noted { Notes (flat_map (λ part. part.now) line.now)
            (inbox_lines (shown self.old).held) (inbox_lines (shown self.new).held) }
        ensures faults { (shown self.new).faults ≡ (shown self.old).faults };
}
