//! The data of all parts that are sent of a dataset, one after the other.
ghost use Rattle.std.specs.Prelude.{◌≡◌, ◌^◌, ◌<◌, drop, length, take, All};
ghost use Rattle.dap_xdr.specs.Content.{data_of};
ghost use Rattle.dap_xdr.specs.Datasets.{content_of};
ghost use Rattle.dap_number.specs.Overlay.{IsPut};
ghost use Rattle.dap_plan.specs.Laid.{AreLaid};
ghost use Rattle.dap_plan.specs.Parts.{IsSentOf};

use crate::laid::{Laid, marks_at, part_at};
use dap_model::Sent;
use dap_xdr::{lent, xdr_piece_marked};
use fm_dataset::Dataset;

// Writes the data from an offset on over the front of a buffer, as much as fits. The parts before it aren't looked at,
// and those behind it are sent from their begin.
pub(crate) fn put_data(
    source: &Dataset,
    sent: &[Sent],
    laid: &Laid,
    from: u64,
    out: &mut [u8],
) -> usize
    requires sent { All (IsSentOf source.now) sent.now }
    requires laid { AreLaid source.now sent.now laid.now }
    requires small { length (data_of (content_of source.now) sent.now) < 2 ^ 64 }
    ensures { IsPut (drop from (data_of (content_of source.now) sent.now)) out.old out.new result }
{
    let begins = laid.begins.as_slice();
    let marks = laid.marks.as_slice();
    let at = part_at(begins, from);
    let mut index = at.index;
    let mut left = at.left;
    let mut filled = 0;
    while index < sent.len() && filled < out.len() {
        let part = &sent[index];
        let known = marks_at(marks, index);
        let (_, rest) = out.split_at_mut(filled);
        filled += xdr_piece_marked(source, part, known, left, rest);
        left = 0;
        index += 1;
    }
    filled
}

// The longest stretch of the data from an offset on that stands in a file as it is sent.
pub(crate) fn lent_data<'a>(source: &'a Dataset, sent: &[Sent], laid: &Laid, from: u64) -> &'a [u8]
    requires sent { All (IsSentOf source.now) sent.now }
    requires laid { AreLaid source.now sent.now laid.now }
    requires small { length (data_of (content_of source.now) sent.now) < 2 ^ 64 }
    ensures { take (length result.now) (drop from (data_of (content_of source.now) sent.now)) ≡ result.now }
{
    let begins = laid.begins.as_slice();
    let at = part_at(begins, from);
    let index = at.index;
    if index >= sent.len() {
        return &[];
    }
    let part = &sent[index];
    lent(source, part, at.left)
}
