//! The bytes that variables take, and the first that takes too many.
ghost use Rattle.std.specs.Prelude.{◌≡◌, All, None, Some, if◌then◌else◌};
ghost use Rattle.fm_base.specs.Answer.{Answers};
ghost use Rattle.nc_model.specs.Layout.{is_too_large, vsize, first_too_large};
ghost use Rattle.nc_layout.specs.Faults.{fault_or};
ghost use Rattle.nc_layout.specs.Kept.{HasLengths, vsizes_of};

use crate::dims::{fixed_dims, size_at};
use fm_base::{Fail, List};
use nc_model::{Header, LayoutFault, NcVar};
use std::alloc::Global;

// The most bytes that a variable may take in one record.
const MOST: u128 = 1 << 40;

// The bytes that a variable takes in one record, or in all where it has no records. `None` where they are too many.
#[tactic(auto, using(crate::proofs::ProductLemmas::products), unfolding(nc_model::specs::Layout::vsize))]
fn checked_vsize(header: &Header, var: &NcVar) -> Option<u64>
    requires { HasLengths header.now var.now }
    ensures { result ≡ (if is_too_large header.now var.now
        then None else Some (vsize header.now var.now)) }
{
    let mut vsize = u128::from(var.kind.size());
    for id in fixed_dims(header, var) {
        vsize *= u128::from(size_at(header, *id));
        if vsize > MOST {
            return None;
        }
    }
    Some(vsize as u64)
}

// The bytes that each variable takes in one record, or the first variable that takes too many.
#[tactic(auto, unfolding(nc_model::specs::Layout::first_too_large))]
pub(crate) fn vsizes(alloc: Global, header: &Header) -> Result<List<u64>, Fail<LayoutFault>>
    requires { All (HasLengths header.now) header.now.vars }
    ensures { Answers (fault_or (first_too_large header.now 0 header.now.vars)
        (vsizes_of header.now)) result }
{
    let mut vsizes = List::new(alloc);
    for (number, var) in header.vars.as_slice().iter().enumerate() {
        let Some(vsize) = checked_vsize(header, var) else {
            return Err(Fail::Fault(LayoutFault::TooLarge(number as u64)));
        };
        vsizes.push(vsize)?;
    }
    Ok(vsizes)
}
