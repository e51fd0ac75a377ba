//! Where the last elements of variables end, and the first variable that has an element past the file's end.
ghost use Rattle.std.specs.Prelude.{◌≡◌, ◌<◌, ◌^◌, All};
ghost use Rattle.nc_model.specs.Layout.{vsize, record_size, first_outside};
ghost use Rattle.nc_layout.specs.Kept.{HasLengths, vsizes_of, end_if_any};
ghost use Rattle.nc_layout.specs.Meaning.{IsSmall};

use crate::dims::part_count_of;
use nc_model::{Header, LayoutFault, NcVar};

// Where the last element of a variable ends, if it has one.
#[tactic(auto, using(crate::proofs::EndLemmas::ends))]
fn end_of(header: &Header, recsize: u128, var: &NcVar, size: u64) -> Option<u128>
    requires recsize { recsize ≡ record_size header.now }
    requires small_recsize { recsize < 2 ^ 73 }
    requires vsize { size ≡ vsize header.now var.now }
    requires lengths { HasLengths header.now var.now }
    requires small { IsSmall header.now var.now }
    ensures { result ≡ end_if_any header.now var.now }
{
    let count = part_count_of(header, var);
    if count == 0 {
        return None;
    }
    Some(u128::from(var.begin) + u128::from(count - 1) * recsize + u128::from(size))
}

// The first variable that has an element past this length.
#[tactic(auto, unfolding(nc_model::specs::Layout::first_outside))]
pub(crate) fn first_outside(
    header: &Header,
    len: u64,
    recsize: u128,
    vsizes: &[u64],
) -> Option<LayoutFault>
    requires recsize { recsize ≡ record_size header.now }
    requires small_recsize { recsize < 2 ^ 73 }
    requires sizes { vsizes.now ≡ vsizes_of header.now }
    requires lengths { All (HasLengths header.now) header.now.vars }
    requires small { All (IsSmall header.now) header.now.vars }
    ensures { result ≡ first_outside header.now len 0 header.now.vars }
{
    for (number, var) in header.vars.as_slice().iter().enumerate() {
        if let Some(end) = end_of(header, recsize, var, vsizes[number]) {
            if end > u128::from(len) {
                return Some(LayoutFault::DataOutside {
                    var: number as u64,
                    end,
                    len,
                });
            }
        }
    }
    None
}
