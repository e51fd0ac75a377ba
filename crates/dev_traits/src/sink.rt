//! A sink of reports.
ghost use Rattle.std.specs.Prelude.{◌≡◌, ◌≤◌, ℕ, length, take, OnOk, OnErr};
ghost use Rattle.dev_traits.specs.Cause.{HasCause};
ghost use Rattle.dev_traits.specs.Shown.{SinkShown};
ghost use Rattle.dev_traits.specs.Sink.{after_append};

use crate::faults::Failed;

/// A sink of reports, which are appended.
pub trait Sink {
    /// All the bytes that were appended, where they are known, and how many calls have failed.
    ghost shown: { Self → SinkShown };

    /// How many calls have failed. The count stands still at its greatest number.
    fn faults(&self) -> u64
        ensures { result ≡ (shown self.now).faults };

    /// Appends all the bytes, or a front of them where the sink fails.
    fn put(&mut self, bytes: &[u8]) -> Result<(), Failed>
        ensures ok { OnOk result ((shown self.new).held ≡ after_append bytes.now (shown self.old).held) }
        ensures err { OnErr result ((count : ℕ) × (count ≤ length bytes.now)
            × ((shown self.new).held ≡ after_append (take count bytes.now) (shown self.old).held)) }
        ensures cause { HasCause (shown self.old).faults (shown self.new).faults result };
}
