//! Calls that are to fail, for the forms in memory.
ghost use Rattle.std.specs.Prelude.{◌≡◌, nat_eq};
ghost use Rattle.std.specs.List.{list_any};
ghost use Rattle.dev_traits.specs.Cause.{one_more};

use dev_traits::{Failed, count_fault};
use fm_base::List;

/// The calls of a device in memory: how many were made so far, the numbers from 1 of those that are to fail, and how
/// many have failed. The first and the last stand still at their greatest number.
#[derive(Drop)]
pub struct Calls {
    pub made: u64,
    pub failing: List<u64>,
    pub faults: u64,
}

impl Calls {
    /// No call was made yet.
    pub fn new(failing: List<u64>) -> Calls
        ensures { result ≡ record { made = 0; failing = failing; faults = 0 } }
    {
        Calls {
            made: 0,
            failing,
            faults: 0,
        }
    }

    /// Counts a call, and says whether it is to fail.
    pub fn due(&mut self) -> bool
        ensures due { result ≡ list_any (λ call. nat_eq call self.new.made) self.old.failing }
        ensures made { self.new.made ≡ one_more self.old.made }
        ensures failing { self.new.failing ≡ self.old.failing }
        ensures faults { self.new.faults ≡ self.old.faults }
    {
        self.made = self.made.saturating_add(1);
        self.failing.as_slice().contains(&self.made)
    }

    /// Counts a call that failed.
    pub fn fail(&mut self) -> Failed
        ensures made { self.new.made ≡ self.old.made }
        ensures failing { self.new.failing ≡ self.old.failing }
        ensures faults { self.new.faults ≡ one_more self.old.faults }
    {
        count_fault(&mut self.faults)
    }
}
