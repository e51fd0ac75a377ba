//! What the first fault of a layout says.
ghost use Rattle.std.specs.Prelude.{MatchOption};
ghost use Rattle.nc_model.specs.Layout.{layout_fault};
ghost use Rattle.nc_layout.specs.Meaning.{IsInside, Says};

use nc_model::Header;

/// What the first fault of a layout says: which variable is at fault, and that none before it is. Where there is no
/// fault, no variable is at fault.
#[tactic(auto, using(crate::proofs::MeaningLemmas::meanings))]
pub fn fault_says(header: &Header, len: u64)
    ensures { MatchOption (layout_fault header.now len)
        (IsInside header.now len) (Says header.now len) }
{}
