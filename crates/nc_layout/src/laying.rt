//! From a header to a layout.
ghost use Rattle.std.specs.Prelude.{◌≡◌, IfOk};
ghost use Rattle.fm_base.specs.Answer.{Answers};
ghost use Rattle.nc_layout.specs.Faults.{CanLayOut, layout_or_fault};

use crate::ends::first_outside;
use crate::layout::Layout;
use crate::records::record_size;
use crate::vsizes::vsizes;
use fm_base::Fail;
use nc_model::{Header, LayoutFault};
use std::alloc::Global;

/// Lays out a header over a file of this length, or returns the first fault of where its elements lie: first, over all
/// variables in order, one that takes more than 2^40 bytes in one record, and then one with an element past the end.
///
/// It takes eight bytes of memory for each variable. The headers that `read_header` returns can be laid out.
#[tactic(auto, using(crate::proofs::LayingLemmas::layings))]
pub fn lay_out(alloc: Global, header: Header, len: u64) -> Result<Layout, Fail<LayoutFault>>
    requires { CanLayOut header }
    ensures exact { Answers (layout_or_fault header len) result }
    ensures header { IfOk result (λ layout. layout.header ≡ header) }
    ensures len { IfOk result (λ layout. layout.len ≡ len) }
{
    let vsizes = vsizes(alloc, &header)?;
    let record_size = record_size(&header, vsizes.as_slice());
    if let Some(fault) = first_outside(&header, len, record_size, vsizes.as_slice()) {
        return Err(Fail::Fault(fault));
    }
    Ok(Layout {
        header,
        len,
        record_size,
        vsizes,
    })
}
