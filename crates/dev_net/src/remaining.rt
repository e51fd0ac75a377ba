//! How many times something is still to come.
ghost use Rattle.std.specs.Prelude.{◌≡◌, ◌↔◌, IsTrue};
ghost use Rattle.dev_net.specs.Remaining.{one_less, remaining_of};

/// How many times something is still to come.
#[derive(Clone, Copy)]
pub enum Remaining {
    Endless,
    Times(u32),
}

impl Remaining {
    /// `count` times; a `count` of 0 is without end.
    pub fn of(count: u32) -> Remaining
        ensures { result ≡ remaining_of count }
    {
        if count == 0 {
            Remaining::Endless
        } else {
            Remaining::Times(count)
        }
    }

    /// Whether it comes no more.
    pub fn is_over(self) -> bool
        ensures { IsTrue result ↔ (self ≡ Remaining.Times 0) }
    {
        matches!(self, Remaining::Times(0))
    }

    /// After it came once more.
    pub fn one_less(self) -> Remaining
        ensures { result ≡ one_less self }
    {
        match self {
            Remaining::Endless => Remaining::Endless,
            Remaining::Times(count) => Remaining::Times(count.saturating_sub(1)),
        }
    }
}
