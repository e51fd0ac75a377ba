//! A link to a peer.
ghost use Rattle.std.specs.Prelude.{◌≡◌, ◌<◌, length, take, IfSome, IfOk, OnErr};
ghost use Rattle.dev_traits.specs.Cause.{HasCause};
ghost use Rattle.dev_traits.specs.Link.{
  GivesNext,
  SendsNow,
  SendsWithin,
  TakesNow,
  TakesWithin,
  after_put,
  after_take,
  sent_count,
  taken_count,
};
ghost use Rattle.dev_traits.specs.Shown.{LinkShown};

use crate::faults::Failed;

/// What a take gave.
#[derive(Clone, Copy, PartialEq, Eq)]
pub enum Taken {
    /// This number of bytes, at least one, at the front of the buffer.
    Bytes(usize),
    /// The end of input.
    End,
    /// Nothing yet. Nothing was taken.
    Later,
}

/// What a put sent.
#[derive(Clone, Copy, PartialEq, Eq)]
pub enum Sent {
    /// This number of the first bytes, at least one.
    Bytes(usize),
    /// Nothing yet.
    Later,
}

/// A link to a peer: bytes that come, and bytes that are sent. A call that would wait says `Later`, or waits where the
/// link is one that blocks.
pub trait Link {
    /// What was taken, what is left and what was put, where they are known, and how many calls have failed.
    ghost shown: { Self → LinkShown };

    /// What shows that the calls wait and never say `Later`, if anything does.
    ghost blocks: { Type 0 } = { ⊥ };

    /// How many calls have failed. The count stands still at its greatest number.
    fn faults(&self) -> u64
        ensures { result ≡ (shown self.now).faults };

    /// Takes the next bytes into the front of `buf`.
    fn take(&mut self, buf: &mut [u8]) -> Result<Taken, Failed>
        requires { 0 < length buf.old }
        ensures within { IfOk result (TakesWithin (length buf.old)) }
        ensures given { IfSome (shown self.old).held (λ wire. IfOk result (GivesNext wire buf.new)) }
        ensures taken { IfOk result (λ taken.
            (shown self.new).held ≡ after_take (taken_count taken) (shown self.old).held) }
        ensures at_once { blocks → IfOk result TakesNow }
        ensures err { OnErr result ((shown self.new).held ≡ (shown self.old).held) }
        ensures cause { HasCause (shown self.old).faults (shown self.new).faults result };

    /// Sends a front of `bytes`. A link that will never take a byte has failed.
    fn put(&mut self, bytes: &[u8]) -> Result<Sent, Failed>
        requires { 0 < length bytes.now }
        ensures within { IfOk result (SendsWithin (length bytes.now)) }
        ensures put { IfOk result (λ sent.
            (shown self.new).held ≡ after_put (take (sent_count sent) bytes.now) (shown self.old).held) }
        ensures at_once { blocks → IfOk result SendsNow }
        ensures err { OnErr result ((shown self.new).held ≡ (shown self.old).held) }
        ensures cause { HasCause (shown self.old).faults (shown self.new).faults result };
}
