//! An array of texts as XDR.
ghost use Rattle.std.specs.Prelude.{◌≡◌, ◌+◌, ◌-◌, ◌<◌, ◌≤◌, drop, get_or, length};
ghost use Rattle.dap_model.specs.Box.{box_len};
ghost use Rattle.dap_model.specs.declared.declaration.DapKind.{DapKind};
ghost use Rattle.dap_xdr.specs.Marks.{spacing, texts_before, AreMarks};
ghost use Rattle.dap_number.specs.Overlay.{IsPut};
ghost use Rattle.dap_xdr.specs.Portion.{texts_of};

use crate::part::Part;
use crate::text::{put_text, text_len};
use dap_number::{count_bytes, put};

// How many texts there are from one mark to the next, of `count` in all.
#[tactic(auto, unfolding(crate::specs::Marks::spacing))]
pub(crate) fn spacing(count: u64) -> u64
    ensures value { result ≡ spacing count }
    ensures some { 1 ≤ result }
{
    1024 * (1 + count / 8_388_608)
}

// How many marks are at or before an offset. Of marks that don't rise it may be fewer.
fn marks_before(marks: &[u64], from: u64) -> usize
    ensures within { result ≤ length marks.now }
    ensures before { 0 < result → get_or marks.now (result - 1) 0 ≤ from }
{
    let count = marks.partition_point(|mark| *mark <= from);
    if count > 0 && marks[count - 1] <= from {
        return count;
    }
    0
}

// Writes texts from an element on, of whose bytes `passed` are passed over, as many bytes as fit. The buffer `index`
// has room for an index list.
fn put_texts_from(
    part: &Part,
    element: u64,
    passed: u64,
    out: &mut [u8],
    index: &mut [u64],
) -> usize
    requires text { part.now.array.kind ≡ DapKind.Text }
    requires index { length index.old ≡ length part.now.sent.slabs }
    requires element { element ≤ box_len part.now.sent.slabs }
    ensures { IsPut (drop (length (texts_before part.now element) + passed) (texts_of part.now)) out.old out.new
        result }
{
    let mut filled = 0;
    let mut left = passed;
    let mut next = element;
    part.begin_at(next, index);
    while next < part.count() && filled < out.len() {
        let text = part.text(next, index);
        let (_, rest) = out.split_at_mut(filled);
        filled += put_text(text, left, rest);
        left = left.saturating_sub(text_len(text.len() as u64));
        next += 1;
        part.go_on_to(next, index);
    }
    filled
}

// Writes texts from an offset on that is at or behind a mark, as many bytes as fit. The buffer `index` has room for an
// index list.
fn put_texts_marked(
    part: &Part,
    marks: &[u64],
    last: usize,
    from: u64,
    out: &mut [u8],
    index: &mut [u64],
) -> usize
    requires text { part.now.array.kind ≡ DapKind.Text }
    requires index { length index.old ≡ length part.now.sent.slabs }
    requires marks { AreMarks part.now marks.now }
    requires last { last < length marks.now }
    requires behind { get_or marks.now last 0 ≤ from }
    ensures { IsPut (drop from (texts_of part.now)) out.old out.new result }
{
    let element = last as u64 * spacing(part.count());
    put_texts_from(part, element, from - marks[last], out, index)
}

// Writes an array of texts from an offset on, as many bytes as fit. The texts from the last mark before that offset are
// passed over one by one. The buffer `index` has room for an index list.
pub(crate) fn put_texts(
    part: &Part,
    marks: &[u64],
    from: u64,
    out: &mut [u8],
    index: &mut [u64],
) -> usize
    requires text { part.now.array.kind ≡ DapKind.Text }
    requires index { length index.old ≡ length part.now.sent.slabs }
    requires marks { AreMarks part.now marks.now }
    ensures { IsPut (drop from (texts_of part.now)) out.old out.new result }
{
    let before = marks_before(marks, from);
    if before > 0 {
        return put_texts_marked(part, marks, before - 1, from, out, index);
    }
    let count = put(&count_bytes(part.count()), from, out);
    let (_, rest) = out.split_at_mut(count);
    count + put_texts_from(part, 0, from.saturating_sub(4), rest, index)
}
