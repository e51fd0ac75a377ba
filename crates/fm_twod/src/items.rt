//! The bytes of values, one after the other.
ghost use Rattle.std.specs.Prelude.{◌≡◌, ◌≢◌, ◌+◌, ◌*◌, ◌<◌, ◌≤◌, drop, length};
ghost use Rattle.dap_model.specs.Box.{box_len, index_at};
ghost use Rattle.dap_model.specs.Xdr.{element_len};
ghost use Rattle.dap_model.specs.declared.declaration.DapKind.{DapKind as Kind};
ghost use Rattle.dap_number.specs.Overlay.{IsPut};
ghost use Rattle.fm_twod.specs.Chosen.{item_of, items_before, items_of};

use crate::section::Section;
use dap_model::DapKind;
use dap_number::{element_len, put_element};
use dap_xdr::{put_text, text_len};

// Writes the bytes of an element, whose index list stands in `index`, from an offset on.
fn put_item(section: &Section, element: u64, index: &[u64], from: u64, out: &mut [u8]) -> usize
    requires element { element < box_len section.now.sent.slabs }
    requires index { index.now ≡ index_at section.now.sent.slabs element }
    ensures { IsPut (drop from (item_of section.now index.now)) out.old out.new result }
{
    match section.kind() {
        DapKind::Text => put_text(section.text(element, index), from, out),
        kind => put_element(kind, section.bits(element, index), from, out),
    }
}

// How many bytes an element takes, whose index list stands in `index`.
fn item_len(section: &Section, element: u64, index: &[u64]) -> u64
    requires element { element < box_len section.now.sent.slabs }
    requires index { index.now ≡ index_at section.now.sent.slabs element }
    ensures exact { result ≡ length (item_of section.now index.now) }
    ensures few { result ≤ 8_589_934_592 }
{
    match section.kind() {
        DapKind::Text => text_len(section.text(element, index).len() as u64),
        kind => element_len(kind),
    }
}

// How many bytes all values take, counted one by one; `count` is how many they are. The buffer `index` has room for an
// index list.
pub(crate) fn items_len(section: &Section, count: u64, index: &mut [u64]) -> u128
    requires count { count ≡ box_len section.now.sent.slabs }
    requires index { length index.old ≡ length section.now.sent.slabs }
    ensures exact { result ≡ length (items_of section.now) }
    ensures few { result ≤ count * 8_589_934_592 }
{
    let mut len = 0;
    section.begin_at(0, index);
    for element in 0..count {
        len += u128::from(item_len(section, element, index));
        section.go_on_to(element + 1, index);
    }
    len
}

// Writes values from an element on, of whose bytes `passed` are passed over, as many bytes as fit. The buffer `index`
// has room for an index list.
pub(crate) fn put_items(
    section: &Section,
    element: u64,
    passed: u64,
    out: &mut [u8],
    index: &mut [u64],
) -> usize
    requires index { length index.old ≡ length section.now.sent.slabs }
    requires element { element ≤ box_len section.now.sent.slabs }
    ensures { IsPut (drop (length (items_before section.now element) + passed) (items_of section.now)) out.old out.new
        result }
{
    let mut filled = 0;
    let mut left = passed;
    let mut next = element;
    section.begin_at(next, index);
    while next < section.count() && filled < out.len() {
        let (_, rest) = out.split_at_mut(filled);
        filled += put_item(section, next, index, left, rest);
        left = left.saturating_sub(item_len(section, next, index));
        next += 1;
        section.go_on_to(next, index);
    }
    filled
}

// Writes numbers from an offset among their bytes on, as many bytes as fit. The number of the offset is found by
// division. The buffer `index` has room for an index list.
pub(crate) fn put_numbers(section: &Section, from: u64, out: &mut [u8], index: &mut [u64]) -> usize
    requires number { section.now.array.kind ≢ Kind.Text }
    requires index { length index.old ≡ length section.now.sent.slabs }
    ensures { IsPut (drop from (items_of section.now)) out.old out.new result }
{
    let width = element_len(section.kind());
    let last = from / width;
    let element = section.count().min(last);
    let before = element * width;
    let passed = from - before;
    put_items(section, element, passed, out, index)
}
