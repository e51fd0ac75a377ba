//! Counts of calls that failed.
ghost use Rattle.std.specs.Prelude.{◌≡◌};
ghost use Rattle.dev_traits.specs.Cause.{one_more};

/// A device failed.
#[derive(Clone, Copy, PartialEq, Eq)]
pub struct Failed;

/// Counts a call that failed. The count stands still at its greatest number.
pub fn count_fault(faults: &mut u64) -> Failed
    ensures { faults.new ≡ one_more faults.old }
{
    *faults = faults.saturating_add(1);
    Failed
}
