//! What stands in a file as it is sent.
ghost use Rattle.std.specs.Prelude.{◌≡◌, ◌≢◌, ◌≤◌, ◌-◌, [], drop, length, take, IsSomeAnd};
ghost use Rattle.dap_model.specs.declared.declaration.DapKind.{DapKind as Kind};
ghost use Rattle.dap_xdr.specs.Content.{array_in, part_data, FitsArray};
ghost use Rattle.dap_xdr.specs.Datasets.{content_of, IsStretchOf};
ghost use Rattle.dap_xdr.specs.Portion.{bits_in, data_in, numbers_from};
ghost use Rattle.dap_xdr.specs.Stretch.{ArePicked};

use crate::part::{FEW, MAX_RANK, Part};
use dap_model::{DapKind, Sent};
use dap_number::element_len;
use fm_dataset::Dataset;

// The bytes of all numbers from an offset on, as far as they stand together in a file.
fn lent_numbers<'a>(part: &Part<'a, '_>, from: u64, index: &mut [u64]) -> &'a [u8]
    requires number { part.now.array.kind ≢ Kind.Text }
    requires same { part.now.array.kind ≢ Kind.Int16 }
    requires index { length index.old ≡ length part.now.sent.slabs }
    ensures { take (length result.now) (drop from (numbers_from part.now 0)) ≡ result.now }
{
    let width = element_len(part.kind());
    let element = from / width;
    if element >= part.count() {
        return &[];
    }
    part.put_index(element, index);
    let stored = part.raw(element, index, u64::MAX);
    let skip = (from % width).min(stored.len() as u64);
    let (_, rest) = stored.split_at(skip as usize);
    rest
}

// The same behind the counts of an array. The buffer `room` has room for an index list.
fn lent_array<'a>(part: &Part<'a, '_>, from: u64, room: &mut [u64]) -> &'a [u8]
    requires many { part.now.sent.slabs ≢ [] }
    requires number { part.now.array.kind ≢ Kind.Text }
    requires same { part.now.array.kind ≢ Kind.Int16 }
    requires behind { 8 ≤ from }
    requires room { length part.now.sent.slabs ≤ length room.old }
    ensures { take (length result.now) (drop from (data_in part.now)) ≡ result.now }
{
    let (index, _) = room.split_at_mut(part.rank());
    lent_numbers(part, from - 8, index)
}

// The same with room for a short index list.
fn lent_few<'a>(part: &Part<'a, '_>, from: u64) -> &'a [u8]
    requires many { part.now.sent.slabs ≢ [] }
    requires number { part.now.array.kind ≢ Kind.Text }
    requires same { part.now.array.kind ≢ Kind.Int16 }
    requires behind { 8 ≤ from }
    requires few { length part.now.sent.slabs ≤ 8 }
    ensures { take (length result.now) (drop from (data_in part.now)) ≡ result.now }
{
    lent_array(part, from, &mut [0; FEW])
}

// The same with room for any index list.
fn lent_any<'a>(part: &Part<'a, '_>, from: u64) -> &'a [u8]
    requires many { part.now.sent.slabs ≢ [] }
    requires number { part.now.array.kind ≢ Kind.Text }
    requires same { part.now.array.kind ≢ Kind.Int16 }
    requires behind { 8 ≤ from }
    requires few { length part.now.sent.slabs ≤ 1025 }
    ensures { take (length result.now) (drop from (data_in part.now)) ≡ result.now }
{
    lent_array(part, from, &mut [0; MAX_RANK])
}

/// Lends a stretch of a part's data from an offset on that stands in a file as it is sent: of an array of bytes, or of
/// numbers of four or eight bytes, as far as its last slabs are whole and a file has them together. It may be empty,
/// and is a front of the data from that offset on. It takes no memory. The caller has a part of the dataset with slabs
/// that fit it.
pub fn lent<'a>(set: &'a Dataset, sent: &Sent, from: u64) -> &'a [u8]
    requires { IsSomeAnd (array_in (content_of set.now).decls sent.now.decl sent.now.part) (FitsArray sent.now) }
    ensures { take (length result.now) (drop from (part_data (content_of set.now) sent.now)) ≡ result.now }
{
    let part = Part::new(set, sent);
    if sent.slabs.get().is_empty() || from < 8 {
        return &[];
    }
    if !part.stands_as_sent() {
        return &[];
    }
    if part.rank() <= FEW {
        return lent_few(&part, from);
    }
    lent_any(&part, from)
}

// Numbers that are sent from an element on, as far as they stand together in a file: none of an array of many
// dimensions.
#[tactic(auto, using(crate::proofs::PickedLemmas::none))]
fn stretch_in<'a>(part: &Part<'a, '_>, element: u64) -> &'a [u8]
    requires { part.now.array.kind ≢ Kind.Text }
    ensures { ArePicked part.now.array.kind (bits_in part.now) part.now.sent.slabs element
        18_446_744_073_709_551_615 result.now }
{
    if part.rank() > FEW || element >= part.count() {
        return &[];
    }
    let mut room = [0; FEW];
    let (index, _) = room.split_at_mut(part.rank());
    part.put_index(element, index);
    part.raw(element, index, u64::MAX)
}

/// Lends numbers that are sent of a part, from an element on, as they stand in a netCDF file: as far as its last slabs
/// are whole and a file has them together. It may be empty, and is for texts and for arrays of more than 8 dimensions.
/// It takes no memory. The caller has a part of the dataset with slabs that fit it.
pub fn stretch<'a>(set: &'a Dataset, sent: &Sent, element: u64) -> &'a [u8]
    requires { IsSomeAnd (array_in (content_of set.now).decls sent.now.decl sent.now.part) (FitsArray sent.now) }
    ensures { IsStretchOf set.now sent.now element result.now }
{
    let part = Part::new(set, sent);
    match part.kind() {
        DapKind::Text => &[],
        _ => stretch_in(&part, element),
    }
}
