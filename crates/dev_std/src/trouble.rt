//! When it is said that something fails, and that it works again.
ghost use Rattle.std.specs.Prelude.{◌≡◌, None, false};
ghost use Rattle.dev_std.specs.Trouble.{after_failure, is_long_ago, is_said};

// A minute, in milliseconds.
const MINUTE: u64 = 60_000;

/// Something that may fail, and what was said of it.
#[derive(Clone, Copy)]
pub struct Trouble {
    /// When it was said last that it fails, in milliseconds.
    pub last: Option<u64>,
    /// Whether it is to be said once it works again.
    pub is_open: bool,
}

impl Trouble {
    /// Nothing was said yet.
    pub fn none() -> Trouble
        ensures { result ≡ record { last = None; is_open = false } }
    {
        Trouble {
            last: None,
            is_open: false,
        }
    }

    // Whether a minute has passed since it was said last.
    fn is_long_ago(self, now: u64) -> bool
        ensures { result ≡ is_long_ago self.last now }
    {
        match self.last {
            None => true,
            Some(last) => !(now < last.saturating_add(MINUTE)),
        }
    }

    /// It failed. Returns whether that is to be said: once each time, and at most once a minute.
    pub fn fails(&mut self, now: u64) -> bool
        ensures said { result ≡ is_said self.old now }
        ensures after { self.new ≡ after_failure self.old now }
    {
        if self.is_open || !self.is_long_ago(now) {
            return false;
        }
        *self = Trouble {
            last: Some(now),
            is_open: true,
        };
        true
    }

    /// It works. Returns whether that is to be said: where it was said that it fails.
    pub fn works(&mut self) -> bool
        ensures said { result ≡ self.old.is_open }
        ensures after { self.new ≡ record self.old { is_open = false } }
    {
        let is_open = self.is_open;
        self.is_open = false;
        is_open
    }
}
