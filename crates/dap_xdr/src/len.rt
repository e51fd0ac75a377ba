//! How many bytes a part takes as XDR, and where texts of it begin.
ghost use Rattle.std.specs.Prelude.{◌≡◌, ◌≢◌, ◌+◌, ◌-◌, ◌*◌, ◌^◌, ◌<◌, ◌≤◌, [], IfOk, IsSomeAnd, IsTrue, OnOk, length};
ghost use Rattle.dap_model.specs.Box.{box_len};
ghost use Rattle.dap_model.specs.declared.declaration.DapKind.{DapKind};
ghost use Rattle.dap_model.specs.Xdr.{elements_len};
ghost use Rattle.dap_xdr.specs.Content.{array_in, part_data, FitsArray};
ghost use Rattle.dap_xdr.specs.Datasets.{content_of};
ghost use Rattle.dap_xdr.specs.Marks.{texts_before, AreMarksOf, IsMarked, IsNoted};
ghost use Rattle.dap_xdr.specs.Portion.{data_in};

use crate::part::{MAX_RANK, Part};
use crate::text::text_len;
use crate::texts::spacing;
use dap_model::{DapKind, Sent};
use dap_number::{element_len, number_len};
use fm_base::{List, NoMemory};
use fm_dataset::Dataset;
use std::alloc::Global;

/// How many bytes the data of a part takes, and of an array of texts the offset of every 1,024th text, or of fewer
/// where there are over 8 million.
#[derive(Drop)]
pub struct Marked {
    pub len: u128,
    pub marks: List<u64>,
}

// How many bytes the texts from an element up to another take. The buffer `index` has room for an index list.
fn texts_len(part: &Part, from: u64, to: u64, index: &mut [u64]) -> u128
    requires text { part.now.array.kind ≡ DapKind.Text }
    requires index { length index.old ≡ length part.now.sent.slabs }
    requires order { from ≤ to }
    requires within { to ≤ box_len part.now.sent.slabs }
    ensures len { length (texts_before part.now from) + result ≡ length (texts_before part.now to) }
    ensures few { result ≤ (to - from) * 8_589_934_592 }
    ensures index { length index.new ≡ length index.old }
{
    let mut len = 0;
    part.begin_at(from, index);
    for element in from..to {
        let text = part.text(element, index);
        len += u128::from(text_len(text.len() as u64));
        part.go_on_to(element + 1, index);
    }
    len
}

// Whether a text is the next of the marks at a spacing, and its offset fits in one.
fn is_next(marks: &List<u64>, every: u64, element: u64, offset: u128) -> bool
    ensures next { IsTrue result → element ≡ length marks.now * every }
    ensures fits { IsTrue result → offset < 2 ^ 64 }
{
    let next = u128::from(marks.len() as u64) * u128::from(every);
    if u128::from(element) != next {
        return false;
    }
    offset <= u128::from(u64::MAX)
}

// Notes the offset of a text, where that is the next of the marks at a spacing.
fn mark(marks: &mut List<u64>, every: u64, element: u64, offset: u128) -> Result<(), NoMemory>
    ensures { OnOk result (IsNoted marks.old every element offset marks.new) }
{
    if !is_next(marks, every, element, offset) {
        return Ok(());
    }
    let small = offset as u64;
    marks.push(small)?;
    Ok(())
}

// How many bytes an array of texts takes, and its marks. The buffer `index` has room for an index list.
fn mark_texts(alloc: Global, part: &Part, index: &mut [u64]) -> Result<Marked, NoMemory>
    requires text { part.now.array.kind ≡ DapKind.Text }
    requires index { length index.old ≡ length part.now.sent.slabs }
    ensures exact { IfOk result (IsMarked part.now) }
    ensures small { IfOk result (λ m. m.len < 2 ^ 98) }
{
    let count = part.count();
    let every = spacing(count);
    let mut marks = List::new(alloc);
    let mut len = 4;
    let mut element = 0;
    while element < count {
        mark(&mut marks, every, element, len)?;
        let next = element + every.min(count - element);
        len += texts_len(part, element, next, index);
        element = next;
    }
    Ok(Marked { len, marks })
}

// How many bytes `count` numbers of an array take, with their counts.
fn numbers_len(kind: DapKind, count: u64) -> u128
    ensures exact { result ≡ 8 + elements_len kind count }
    ensures small { result < 2 ^ 98 }
{
    8 + (u128::from(count) * u128::from(element_len(kind)) + 3) / 4 * 4
}

// How many bytes one number or one text takes.
fn alone_len(part: &Part) -> u64
    requires { part.now.sent.slabs ≡ [] }
    ensures { result ≡ length (data_in part.now) }
{
    match part.kind() {
        DapKind::Text => text_len(part.text(0, &[]).len() as u64),
        kind => number_len(kind),
    }
}

// How many bytes an array of numbers or texts takes.
fn many_len(part: &Part) -> u128
    requires { part.now.sent.slabs ≢ [] }
    ensures exact { result ≡ length (data_in part.now) }
    ensures small { result < 2 ^ 98 }
{
    match part.kind() {
        DapKind::Text => {
            let mut room = [0; MAX_RANK];
            let (index, _) = room.split_at_mut(part.rank());
            4 + texts_len(part, 0, part.count(), index)
        }
        kind => numbers_len(kind, part.count()),
    }
}

/// How many bytes the data of a part takes (RFC 4506; ESE-RFC-004, the data of DAP 2.0). It takes no memory. The caller
/// has a part of the dataset with slabs that fit it. An array of texts costs a walk over its texts.
pub fn xdr_len(set: &Dataset, sent: &Sent) -> u128
    requires { IsSomeAnd (array_in (content_of set.now).decls sent.now.decl sent.now.part) (FitsArray sent.now) }
    ensures exact { result ≡ length (part_data (content_of set.now) sent.now) }

    // An array has fewer than 2^64 elements, and a text fewer than 2^32 bytes.
    ensures small { result < 2 ^ 98 }
{
    let part = Part::new(set, sent);
    if sent.slabs.get().is_empty() {
        u128::from(alone_len(&part))
    } else {
        many_len(&part)
    }
}

// How many bytes a part that isn't an array of texts takes, without marks.
fn unmarked(alloc: Global, set: &Dataset, sent: &Sent) -> Marked
    requires { IsSomeAnd (array_in (content_of set.now).decls sent.now.decl sent.now.part) (FitsArray sent.now) }
    ensures len { result.len ≡ length (part_data (content_of set.now) sent.now) }
    ensures small { result.len < 2 ^ 98 }
    ensures marks { AreMarksOf set.now sent.now result.marks }
{
    let marks = List::new(alloc);
    let len = xdr_len(set, sent);
    Marked { len, marks }
}

// How many bytes an array of texts takes, and its marks.
fn texts_marked(alloc: Global, part: &Part) -> Result<Marked, NoMemory>
    requires text { part.now.array.kind ≡ DapKind.Text }
    ensures exact { IfOk result (IsMarked part.now) }
    ensures small { IfOk result (λ m. m.len < 2 ^ 98) }
{
    let mut room = [0; MAX_RANK];
    let (index, _) = room.split_at_mut(part.rank());
    mark_texts(alloc, part, index)
}

/// How many bytes the data of a part takes, and marks in an array of texts, so that a piece of it can be written
/// without a walk over all texts before it. The caller has a part of the dataset with slabs that fit it. An array of
/// texts costs one walk over its texts, and some 64 KB at most.
pub fn xdr_marks(alloc: Global, set: &Dataset, sent: &Sent) -> Result<Marked, NoMemory>
    requires { IsSomeAnd (array_in (content_of set.now).decls sent.now.decl sent.now.part) (FitsArray sent.now) }
    ensures len { IfOk result (λ m. m.len ≡ length (part_data (content_of set.now) sent.now)) }
    ensures small { IfOk result (λ m. m.len < 2 ^ 98) }
    ensures marks { IfOk result (λ m. AreMarksOf set.now sent.now m.marks) }
{
    let part = Part::new(set, sent);
    if !part.has_texts() {
        return Ok(unmarked(alloc, set, sent));
    }
    let marks = texts_marked(alloc, &part)?;
    Ok(marks)
}
