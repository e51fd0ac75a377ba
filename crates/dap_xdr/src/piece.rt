//! The bytes of a part from any offset.
ghost use Rattle.std.specs.Prelude.{◌≡◌, ◌≢◌, ◌-◌, ◌^◌, ◌<◌, ◌≤◌, [], drop, length, min, IsSomeAnd};
ghost use Rattle.dap_model.specs.declared.declaration.DapKind.{DapKind as Kind};
ghost use Rattle.dap_xdr.specs.Content.{array_in, part_data, FitsArray};
ghost use Rattle.dap_xdr.specs.Datasets.{content_of};
ghost use Rattle.dap_xdr.specs.Marks.{AreMarks, AreMarksOf};
ghost use Rattle.dap_number.specs.Overlay.{overlay, IsPut};
ghost use Rattle.dap_xdr.specs.Portion.{data_in};

use crate::array::put_array;
use crate::part::{FEW, MAX_RANK, Part};
use crate::text::put_text;
use crate::texts::put_texts;
use dap_model::{DapKind, Sent};
use dap_number::put_number;
use fm_dataset::Dataset;

// Writes one number or one text.
fn put_alone(part: &Part, from: u64, out: &mut [u8]) -> usize
    requires alone { part.now.sent.slabs ≡ [] }
    ensures { IsPut (drop from (data_in part.now)) out.old out.new result }
{
    match part.kind() {
        DapKind::Text => put_text(part.text(0, &[]), from, out),
        kind => put_number(kind, part.bits(0, &[]), from, out),
    }
}

// Writes an array of numbers or texts. The buffer `room` has room for an index list.
fn put_many(part: &Part, marks: &[u64], from: u64, out: &mut [u8], room: &mut [u64]) -> usize
    requires marks { part.now.array.kind ≡ Kind.Text → AreMarks part.now marks.now }
    requires many { part.now.sent.slabs ≢ [] }
    requires small { length (data_in part.now) < 2 ^ 64 }
    requires room { length part.now.sent.slabs ≤ length room.old }
    ensures { IsPut (drop from (data_in part.now)) out.old out.new result }
{
    let (index, _) = room.split_at_mut(part.rank());
    match part.kind() {
        DapKind::Text => put_texts(part, marks, from, out, index),
        _ => put_array(part, from, out, index),
    }
}

// The same with room for a short index list.
fn put_few(part: &Part, marks: &[u64], from: u64, out: &mut [u8]) -> usize
    requires marks { part.now.array.kind ≡ Kind.Text → AreMarks part.now marks.now }
    requires many { part.now.sent.slabs ≢ [] }
    requires small { length (data_in part.now) < 2 ^ 64 }
    requires few { length part.now.sent.slabs ≤ 8 }
    ensures { IsPut (drop from (data_in part.now)) out.old out.new result }
{
    put_many(part, marks, from, out, &mut [0; FEW])
}

// The same with room for any index list.
fn put_any(part: &Part, marks: &[u64], from: u64, out: &mut [u8]) -> usize
    requires marks { part.now.array.kind ≡ Kind.Text → AreMarks part.now marks.now }
    requires many { part.now.sent.slabs ≢ [] }
    requires small { length (data_in part.now) < 2 ^ 64 }
    requires few { length part.now.sent.slabs ≤ 1025 }
    ensures { IsPut (drop from (data_in part.now)) out.old out.new result }
{
    put_many(part, marks, from, out, &mut [0; MAX_RANK])
}

/// Writes the data of a part from an offset on over the front of a buffer, as many bytes as fit, and returns how many
/// that are (RFC 4506; ESE-RFC-004, the data of DAP 2.0). It takes no memory. The caller has a part of the dataset with
/// slabs that fit it, and fewer than 2^64 bytes of data.
///
/// A piece of numbers costs the same from each offset. A piece of an array of texts costs a walk over the texts before
/// it, from the last of these marks on.
pub fn xdr_piece_marked(
    set: &Dataset,
    sent: &Sent,
    marks: &[u64],
    from: u64,
    out: &mut [u8],
) -> usize
    requires marks { AreMarksOf set.now sent.now marks.now }
    requires part { IsSomeAnd (array_in (content_of set.now).decls sent.now.decl sent.now.part) (FitsArray sent.now) }
    requires small { length (part_data (content_of set.now) sent.now) < 2 ^ 64 }
    ensures count { result ≡ min (length out.old) (length (part_data (content_of set.now) sent.now) - from) }
    ensures bytes { out.new ≡ overlay (drop from (part_data (content_of set.now) sent.now)) out.old }
{
    let part = Part::new(set, sent);
    if sent.slabs.get().is_empty() {
        return put_alone(&part, from, out);
    }
    if part.rank() <= FEW {
        return put_few(&part, marks, from, out);
    }
    put_any(&part, marks, from, out)
}

/// The same without marks: a piece of an array of texts costs a walk over all texts before it.
pub fn xdr_piece(set: &Dataset, sent: &Sent, from: u64, out: &mut [u8]) -> usize
    requires part { IsSomeAnd (array_in (content_of set.now).decls sent.now.decl sent.now.part) (FitsArray sent.now) }
    requires small { length (part_data (content_of set.now) sent.now) < 2 ^ 64 }
    ensures count { result ≡ min (length out.old) (length (part_data (content_of set.now) sent.now) - from) }
    ensures bytes { out.new ≡ overlay (drop from (part_data (content_of set.now) sent.now)) out.old }
{
    xdr_piece_marked(set, sent, &[], from, out)
}
