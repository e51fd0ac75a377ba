//! A clock.
ghost use Rattle.std.specs.Prelude.{◌≡◌, IfSome, IsTrue, Option as Optional};
ghost use Rattle.std.specs.List.{flat_map};
ghost use Rattle.dev_traits.specs.Clock.{
  Moments,
  after_moment,
  after_verdict,
  clock_lines,
  with_clock_lines,
};
ghost use Rattle.dev_traits.specs.Door.{first_of};
ghost use Rattle.dev_traits.specs.Lines.{Notes};

/// What became of the runs that were too old at a moment.
#[derive(Clone, Copy, Debug, PartialEq, Eq)]
pub enum Expiry {
    /// The number, from 1, of the operation by which they went.
    Expired(u64),
    /// The number of operations after which no run was too old.
    Idle(u64),
    /// Memory ran out.
    Short,
}

/// A clock, which says when to act.
pub trait Clock {
    /// The moments that are left, whether one waits for its verdict, the verdicts and the lines, where they are known.
    ghost shown: { Self → Optional Moments };

    /// Waits for the next moment to act, in seconds from 1970. `None` is the end.
    fn next(&mut self) -> Option<i64>
        ensures next { IfSome (shown self.old) (λ moments. result ≡ first_of moments.left) }
        ensures taken { shown self.new ≡ after_moment result (shown self.old) };

    /// Takes the verdict on the moment given last. It takes no memory.
    fn settle(&mut self, verdict: Expiry)
        requires { IfSome (shown self.old) (λ moments. IsTrue moments.waits) }
        ensures { shown self.new ≡ after_verdict verdict (shown self.old) };

    /// Takes a line of the journal, in slices and without its end. It may lose it, and doesn't wait for it to be
    /// written.
    fn note(&mut self, line: &[&[u8]])
        ensures same { shown self.new ≡ with_clock_lines (clock_lines (shown self.new)) (shown self.old) }
        ensures noted { Notes (flat_map (λ part. part.now) line.now)
            (clock_lines (shown self.old)) (clock_lines (shown self.new)) };
}
