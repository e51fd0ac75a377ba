//! Dimensions as far as they are read.

use fm_base::List;
use nc_model::Dim;

// The most values that an array may have.
pub(crate) const MOST_VALUES: u64 = 0xffff_ffff;

// The dimensions before, and the greatest size that one more may have.
#[derive(Drop)]
pub(crate) struct Shape {
    pub dims: List<Dim>,
    pub room: u64,
}
