//! The bytes of an array of numbers.
ghost use Rattle.std.specs.Prelude.{◌≡◌, ◌≢◌, ◌-◌, ◌*◌, ◌^◌, ◌<◌, ◌+◌, drop, length, min};
ghost use Rattle.dap_model.specs.Box.{box_len};
ghost use Rattle.dap_model.specs.declared.declaration.DapKind.{DapKind};
ghost use Rattle.dap_model.specs.Xdr.{element_len};
ghost use Rattle.dap_xdr.specs.Portion.{array_of, body_of};
ghost use Rattle.dap_number.specs.Overlay.{IsPut};

use crate::elements::put_elements;
use crate::part::Part;
use dap_number::{count_twice, element_len, put, put_zeros};

// Writes the numbers and the zero bytes after them from an offset on.
fn put_body(part: &Part, from: u64, out: &mut [u8], index: &mut [u64]) -> usize
    requires number { part.now.array.kind ≢ DapKind.Text }
    requires index { length index.old ≡ length part.now.sent.slabs }
    requires small { box_len part.now.sent.slabs * element_len part.now.array.kind < 2 ^ 64 }
    ensures { IsPut (drop from (body_of part.now)) out.old out.new result }
{
    let len = part.count() * element_len(part.kind());
    let count = put_elements(part, from, out, index);
    let (_, rest) = out.split_at_mut(count);
    count + put_zeros(len, from.saturating_sub(len), rest)
}

// Writes the bytes of an array of numbers from an offset on, as many as fit. The buffer `index` has room for an index
// list.
pub(crate) fn put_array(part: &Part, from: u64, out: &mut [u8], index: &mut [u64]) -> usize
    requires number { part.now.array.kind ≢ DapKind.Text }
    requires index { length index.old ≡ length part.now.sent.slabs }
    requires small { box_len part.now.sent.slabs * element_len part.now.array.kind < 2 ^ 64 }
    ensures { IsPut (drop from (array_of part.now)) out.old out.new result }
{
    let count = put(&count_twice(part.count()), from, out);
    let (_, rest) = out.split_at_mut(count);
    count + put_body(part, from.saturating_sub(8), rest, index)
}
