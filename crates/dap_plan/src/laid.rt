//! Where the data of each part lies among that of all parts.
ghost use Rattle.std.specs.Prelude.{◌≡◌, ◌+◌, ◌^◌, ◌<◌, ◌≤◌, All, IfOk, List as Items, OnOk, Some, length, nat_le, slice_get};
ghost use Rattle.std.specs.List.Sorted.{IsNonDecreasingBy};
ghost use Rattle.dap_model.specs.declared.projection.Sent.{Sent as Part};
ghost use Rattle.dap_xdr.specs.Content.{data_of};
ghost use Rattle.dap_xdr.specs.Datasets.{content_of};
ghost use Rattle.dap_xdr.specs.Marks.{AreMarksOf};
ghost use Rattle.dap_plan.specs.Laid.{AreBegun, AreLaid, AreMarked, IsKept, IsLastBegun, StandsAt};
ghost use Rattle.dap_plan.specs.Parts.{IsSentOf};
ghost use Rattle.fm_dataset.specs.Values.{Shown};

use dap_model::Sent;
use dap_xdr::xdr_marks;
use fm_base::{List, NoMemory};
use fm_dataset::Dataset;
use std::alloc::Global;

/// Marks in the texts of the part at an index.
#[derive(Drop)]
pub struct TextMarks {
    pub index: usize,
    pub offsets: List<u64>,
}

/// Where the data of each part begins, and the marks of the parts that have some, by their indices.
#[derive(Drop)]
pub struct Laid {
    pub begins: List<u64>,
    pub marks: List<TextMarks>,
}

/// How many bytes the data of all parts takes, and where that of each lies.
#[derive(Drop)]
pub struct Layout {
    pub len: u128,
    pub parts: Laid,
}

// A part, and an offset in its data.
#[derive(Clone, Copy)]
pub(crate) struct Position {
    pub index: usize,
    pub left: u64,
}

// No part is laid.
pub(crate) fn no_parts(alloc: Global) -> Laid {
    Laid {
        begins: List::new(alloc),
        marks: List::new(alloc),
    }
}

// An offset in 64 bits; the greatest number where it doesn't fit.
fn short(offset: u128) -> u64
    ensures { offset < 2 ^ 64 → result ≡ offset }
{
    if offset > u64::MAX as u128 {
        return u64::MAX;
    }
    offset as u64
}

// Keeps the marks of the part at an index, where there are any.
fn keep_marks(marks: &mut List<TextMarks>, index: usize, offsets: List<u64>) -> Result<(), NoMemory>
    ensures { OnOk result (IsKept marks.old index offsets marks.new) }
{
    if offsets.is_empty() {
        return Ok(());
    }
    marks.push(TextMarks { index, offsets })?;
    Ok(())
}

/// Lays out the data of all parts: a walk over the texts of each array of Strings, and nothing else that grows with the
/// data. It takes eight bytes for each part, and its marks.
pub fn lay_out(alloc: Global, source: &Dataset, sent: &[Sent]) -> Result<Layout, NoMemory>
    requires sent { All (IsSentOf source.now) sent.now }
    requires few { length sent.now < 2 ^ 28 }
    ensures exact { IfOk result (λ laid. laid.len ≡ length (data_of (content_of source.now) sent.now)) }
    ensures small { IfOk result (λ laid. laid.len < 2 ^ 126) }
    ensures laid { IfOk result (λ laid. AreLaid source.now sent.now laid.parts) }
{
    let items = Vec::with_capacity(alloc, sent.len())?;
    let mut begins = List { items };
    let mut marks = List::new(alloc);
    let mut len: u128 = 0;
    for part in sent {
        let marked = xdr_marks(alloc, source, part)?;
        let more = marked.len;
        let index = begins.len();
        keep_marks(&mut marks, index, marked.marks)?;
        let begin = short(len);
        begins.push(begin)?;
        len += more;
    }
    Ok(Layout {
        len,
        parts: Laid { begins, marks },
    })
}

// How many marked parts stand before an index.
fn marked_before(marks: &[TextMarks], index: usize) -> usize {
    marks.partition_point(|one: &TextMarks| -> bool { one.index < index })
}

// The marks of the part at an index: none where it has none.
pub(crate) fn marks_at(marks: &[TextMarks], index: usize) -> &[u64]
    ensures { (shown : Shown) (sent : Items Part) (part : Part) → AreMarked shown sent marks.now
        → slice_get sent index ≡ Some part → AreMarksOf shown part result.now }
{
    let at = marked_before(marks, index);
    if at >= marks.len() {
        return &[];
    }
    let one = &marks[at];
    if one.index != index {
        return &[];
    }
    one.offsets.as_slice()
}

// How many parts begin at or before an offset.
fn begun_at(begins: &[u64], from: u64) -> usize
    requires { IsNonDecreasingBy (λ begin. begin) begins.now }
    ensures bound { result ≤ length begins.now }
    ensures begun { AreBegun begins.now from result }
{
    begins.partition_point(
        |begin: &u64| -> bool
            ensures { result ≡ nat_le begin.now from }
        { *begin <= from },
    )
}

// How far an offset lies behind the begin of a part.
fn behind(begin: u64, from: u64) -> u64
    requires { begin ≤ from }
    ensures { result + begin ≡ from }
{
    from - begin
}

// The last part that begins at or before an offset, and how far behind its begin that is.
pub(crate) fn part_at(begins: &[u64], from: u64) -> Position
    requires { IsNonDecreasingBy (λ begin. begin) begins.now }
    ensures stands { StandsAt begins.now from result }

    // So it ends behind the offset, or is the last of all.
    ensures last { IsLastBegun begins.now from result.index }
{
    let begun = begun_at(begins, from);
    if begun == 0 {
        return Position {
            index: 0,
            left: from,
        };
    }
    let index = begun - 1;
    let left = behind(begins[index], from);
    Position { index, left }
}
