//! The bytes of a part from any offset.
ghost use Rattle.std.specs.Prelude.{◌≡◌, ◌≢◌, ◌-◌, ◌*◌, ◌^◌, ◌<◌, ◌≤◌, ℕ, [], drop, length, min};
ghost use Rattle.dap_model.specs.Box.{box_len};
ghost use Rattle.dap_model.specs.Xdr.{element_len};
ghost use Rattle.dap_model.specs.declared.declaration.DapKind.{DapKind as Kind};
ghost use Rattle.dap_number.specs.Overlay.{overlay, IsPut};
ghost use Rattle.dap_xdr.specs.Content.{part_data};
ghost use Rattle.fm_twod.specs.Chosen.{body_of, counts_before, data_in};
ghost use Rattle.fm_twod.specs.Laid.{content_of};
ghost use Rattle.fm_twod.specs.Parts.{IsSentOf};

use crate::grid::Grid;
use crate::items::{put_items, put_numbers};
use crate::row::{FEW, MAX_RANK};
use crate::section::Section;
use dap_model::{DapKind, Sent};
use dap_number::{count_bytes, count_twice, element_len, put, put_number, put_zeros};
use dap_xdr::put_text;

// Writes one number or one text.
fn put_alone(section: &Section, from: u64, out: &mut [u8]) -> usize
    requires alone { section.now.sent.slabs ≡ [] }
    ensures { IsPut (drop from (data_in section.now)) out.old out.new result }
{
    match section.kind() {
        DapKind::Text => put_text(section.text(0, &[]), from, out),
        kind => put_number(kind, section.bits(0, &[]), from, out),
    }
}

// How many bytes the counts before values of a kind take.
fn counts_len(kind: DapKind) -> u64
    ensures { (count : ℕ) → result ≡ length (counts_before kind count) }
{
    match kind {
        DapKind::Text => 4,
        _ => 8,
    }
}

// Writes the counts before values of a kind from an offset on.
#[tactic(auto, unfolding(crate::specs::Chosen::counts_before))]
fn put_counts(kind: DapKind, count: u64, from: u64, out: &mut [u8]) -> usize
    ensures count { result ≡ min (length out.old) (length (counts_before kind count) - from) }
    ensures bytes { out.new ≡ overlay (drop from (counts_before kind count)) out.old }
{
    match kind {
        DapKind::Text => put(&count_bytes(count), from, out),
        DapKind::Byte | DapKind::Int16 | DapKind::Int32 | DapKind::Float32 | DapKind::Float64 => {
            put(&count_twice(count), from, out)
        }
    }
}

// Writes numbers and the zero bytes after them from an offset on. The buffer `index` has room for an index list.
fn put_padded(section: &Section, from: u64, out: &mut [u8], index: &mut [u64]) -> usize
    requires number { section.now.array.kind ≢ Kind.Text }
    requires index { length index.old ≡ length section.now.sent.slabs }
    requires small { box_len section.now.sent.slabs * element_len section.now.array.kind < 2 ^ 64 }
    ensures { IsPut (drop from (body_of section.now)) out.old out.new result }
{
    let len = section.count() * element_len(section.kind());
    let count = put_numbers(section, from, out, index);
    let (_, rest) = out.split_at_mut(count);
    count + put_zeros(len, from.saturating_sub(len), rest)
}

// Writes values and what stands after them from an offset on. The buffer `index` has room for an index list.
fn put_body(section: &Section, from: u64, out: &mut [u8], index: &mut [u64]) -> usize
    requires index { length index.old ≡ length section.now.sent.slabs }
    requires small { box_len section.now.sent.slabs * element_len section.now.array.kind < 2 ^ 64 }
    ensures { IsPut (drop from (body_of section.now)) out.old out.new result }
{
    match section.kind() {
        DapKind::Text => put_items(section, 0, from, out, index),
        _ => put_padded(section, from, out, index),
    }
}

// Writes an array of numbers or texts. The buffer `room` has room for an index list.
fn put_many(section: &Section, from: u64, out: &mut [u8], room: &mut [u64]) -> usize
    requires many { section.now.sent.slabs ≢ [] }
    requires small { length (data_in section.now) < 2 ^ 64 }
    requires room { length section.now.sent.slabs ≤ length room.old }
    ensures { IsPut (drop from (data_in section.now)) out.old out.new result }
{
    let (index, _) = room.split_at_mut(section.rank());
    let counts = counts_len(section.kind());
    let count = put_counts(section.kind(), section.count(), from, out);
    let (_, rest) = out.split_at_mut(count);
    count + put_body(section, from.saturating_sub(counts), rest, index)
}

// The same with room for a short index list.
fn put_few(section: &Section, from: u64, out: &mut [u8]) -> usize
    requires many { section.now.sent.slabs ≢ [] }
    requires small { length (data_in section.now) < 2 ^ 64 }
    requires few { length section.now.sent.slabs ≤ 8 }
    ensures { IsPut (drop from (data_in section.now)) out.old out.new result }
{
    put_many(section, from, out, &mut [0; FEW])
}

// The same with room for any index list.
fn put_any(section: &Section, from: u64, out: &mut [u8]) -> usize
    requires many { section.now.sent.slabs ≢ [] }
    requires small { length (data_in section.now) < 2 ^ 64 }
    requires few { length section.now.sent.slabs ≤ 1025 }
    ensures { IsPut (drop from (data_in section.now)) out.old out.new result }
{
    put_many(section, from, out, &mut [0; MAX_RANK])
}

// Writes the data of a part from an offset on over the front of a buffer, as many bytes as fit, and returns how many
// that are. It takes no memory. A piece of numbers costs the same from each offset, one of texts a walk over the texts
// before it.
pub(crate) fn section_piece(grid: &Grid, sent: &Sent, from: u64, out: &mut [u8]) -> usize
    requires part { IsSentOf grid.now sent.now }
    requires small { length (part_data (content_of grid.now) sent.now) < 2 ^ 64 }
    ensures { IsPut (drop from (part_data (content_of grid.now) sent.now)) out.old out.new result }
{
    let section = Section::new(grid, sent);
    if sent.slabs.get().is_empty() {
        return put_alone(&section, from, out);
    }
    if section.rank() <= FEW {
        return put_few(&section, from, out);
    }
    put_any(&section, from, out)
}
