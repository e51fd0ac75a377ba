//! The bytes of numbers, one after the other.
ghost use Rattle.std.specs.Prelude.{◌≡◌, ◌≢◌, ◌+◌, ◌-◌, ◌<◌, ◌≤◌, ◌++◌, drop, length, min, take};
ghost use Rattle.dap_model.specs.Box.{box_len, index_at};
ghost use Rattle.dap_model.specs.declared.declaration.DapKind.{DapKind};
ghost use Rattle.dap_model.specs.Xdr.{element_len};
ghost use Rattle.dap_number.specs.Front.{IsFront};
ghost use Rattle.dap_xdr.specs.Portion.{numbers_from};
ghost use Rattle.dap_number.specs.Overlay.{overlay};

use crate::part::Part;
use crate::rows::put_rows;
use crate::stored::put_stored;
use dap_number::{element_len, put_element};

// One of the numbers that are sent, and how many of its bytes are passed over.
#[derive(Clone, Copy)]
pub(crate) struct Position {
    element: u64,
    skip: u64,
}

// Writes numbers from a position on, as they stand in a file: maybe nothing. The index list of its element stands in
// `index`.
fn put_in_place(part: &Part, at: Position, out: &mut [u8], index: &[u64]) -> usize
    requires number { part.now.array.kind ≢ DapKind.Text }
    requires element { at.element < box_len part.now.sent.slabs }
    requires room { 0 < length out.old }
    requires index { index.now ≡ index_at part.now.sent.slabs at.element }
    ensures { IsFront (drop at.skip (numbers_from part.now at.element)) out.old out.new result }
{
    let stored = part.raw(at.element, index, out.len() as u64);
    put_stored(part.kind(), stored, at.skip, out)
}

// Writes whole rows from a position on, at the beginning of a number, as they stand in a file: maybe none. The index
// list of its element stands in `index`.
fn put_turns(part: &Part, at: Position, out: &mut [u8], index: &[u64]) -> usize
    requires number { part.now.array.kind ≢ DapKind.Text }
    requires element { at.element < box_len part.now.sent.slabs }
    requires begins { at.skip ≡ 0 }
    requires index { index.now ≡ index_at part.now.sent.slabs at.element }
    ensures { IsFront (drop at.skip (numbers_from part.now at.element)) out.old out.new result }
{
    let (stored, rows) = part.rows(at.element, index);
    put_rows(part.kind(), stored, rows, out)
}

// Writes the number at a position. The index list of its element stands in `index`.
fn put_first(part: &Part, at: Position, out: &mut [u8], index: &[u64]) -> usize
    requires number { part.now.array.kind ≢ DapKind.Text }
    requires element { at.element < box_len part.now.sent.slabs }
    requires skip { at.skip < element_len part.now.array.kind }
    requires room { 0 < length out.old }
    requires index { index.now ≡ index_at part.now.sent.slabs at.element }
    ensures some { 1 ≤ result }
    ensures front { IsFront (drop at.skip (numbers_from part.now at.element)) out.old out.new
        result }
{
    let bits = part.bits(at.element, index);
    put_element(part.kind(), bits, at.skip, out)
}

// Writes numbers from a position on that stand together, or one number: at least one byte. The index list of its
// element stands in `index`.
#[tactic(auto, using(dap_number::proofs::FrontLemmas::nothing))]
fn put_stretch(part: &Part, at: Position, out: &mut [u8], index: &[u64]) -> usize
    requires number { part.now.array.kind ≢ DapKind.Text }
    requires element { at.element < box_len part.now.sent.slabs }
    requires skip { at.skip < element_len part.now.array.kind }
    requires room { 0 < length out.old }
    requires index { index.now ≡ index_at part.now.sent.slabs at.element }
    ensures some { 1 ≤ result }
    ensures front { IsFront (drop at.skip (numbers_from part.now at.element)) out.old out.new result }
{
    let count = put_in_place(part, at, out, index);
    if count > 0 {
        return count;
    }
    put_first(part, at, out, index)
}

// Writes whole rows from a position on, or what stands together there, or one number: at least one byte. The index list
// of its element stands in `index`.
#[tactic(auto, using(dap_number::proofs::FrontLemmas::nothing))]
fn put_longest(part: &Part, at: Position, out: &mut [u8], index: &[u64]) -> usize
    requires number { part.now.array.kind ≢ DapKind.Text }
    requires element { at.element < box_len part.now.sent.slabs }
    requires skip { at.skip < element_len part.now.array.kind }
    requires room { 0 < length out.old }
    requires index { index.now ≡ index_at part.now.sent.slabs at.element }
    ensures some { 1 ≤ result }
    ensures front { IsFront (drop at.skip (numbers_from part.now at.element)) out.old out.new result }
{
    if !part.is_stored() {
        return put_first(part, at, out, index);
    }
    if at.skip > 0 {
        return put_stretch(part, at, out, index);
    }
    let count = put_turns(part, at, out, index);
    if count > 0 {
        return count;
    }
    put_stretch(part, at, out, index)
}

// The same behind the first `filled` bytes of the buffer.
fn put_more(part: &Part, at: Position, filled: usize, out: &mut [u8], index: &[u64]) -> usize
    requires number { part.now.array.kind ≢ DapKind.Text }
    requires element { at.element < box_len part.now.sent.slabs }
    requires skip { at.skip < element_len part.now.array.kind }
    requires room { filled < length out.old }
    requires index { index.now ≡ index_at part.now.sent.slabs at.element }
    ensures some { 1 ≤ result }
    ensures fits { filled + result ≤ length out.old }
    ensures within { result ≤ length (drop at.skip (numbers_from part.now at.element)) }
    ensures bytes { out.new ≡ take filled out.old
        ++ (take result (drop at.skip (numbers_from part.now at.element)) ++ drop (filled + result)
        out.old) }
{
    let (_, rest) = out.split_at_mut(filled);
    put_longest(part, at, rest, index)
}

// Writes the bytes of the numbers that are sent from an offset on, as many as fit, and returns how many that are. The
// buffer `index` has room for an index list.
pub(crate) fn put_elements(part: &Part, from: u64, out: &mut [u8], index: &mut [u64]) -> usize
    requires number { part.now.array.kind ≢ DapKind.Text }
    requires index { length index.old ≡ length part.now.sent.slabs }
    ensures count { result ≡ min (length out.old)
        (length (numbers_from part.now 0) - from) }
    ensures bytes { out.new ≡ overlay (drop from (numbers_from part.now 0)) out.old }
    ensures index { length index.new ≡ length index.old }
{
    let width = element_len(part.kind());
    let mut element = from / width;
    let mut skip = from % width;
    let mut filled = 0;
    part.begin_at(element, index);
    while element < part.count() && filled < out.len() {
        let count = put_more(part, Position { element, skip }, filled, out, index);
        let passed = skip + count as u64;
        let next = element + passed / width;
        skip = passed % width;
        filled += count;
        part.move_on(element, next, index);
        element = next;
    }
    filled
}
