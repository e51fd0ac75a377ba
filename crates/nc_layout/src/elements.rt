//! Where one element and one part of a variable lie.
ghost use Rattle.std.specs.Prelude.{◌≡◌, ◌+◌, ◌*◌, ◌<◌, ◌≤◌, ◌^◌, map};
ghost use Rattle.nc_model.specs.Kind.{size_of};
ghost use Rattle.nc_model.specs.Layout.{size_at, shape_of, fixed_shape, product, rank_in, vsize, record_size, offset_of, IsIndex};
ghost use Rattle.nc_layout.specs.Kept.{IsWithin, part_of, index_in_part};
ghost use Rattle.nc_layout.specs.Meaning.{IsSmall};
ghost use Rattle.nc_layout.specs.LaidOut.{part_begin, part_count};

use crate::dims::{fixed_dims, is_record_var, size_at};
use nc_model::{Header, NcVar};

// The number of an index list in row-major order, over these dimensions.
#[tactic(auto, using(crate::proofs::RankLemmas::ranks))]
fn rank(header: &Header, ids: &[u32], index: &[u64]) -> u64
    requires index { IsIndex (map (size_at header.now) ids.now) index.now }
    requires small { product (map (size_at header.now) ids.now) < 2 ^ 64 }
    ensures { result ≡ rank_in (map (size_at header.now) ids.now) index.now }
{
    let mut rank = 0;
    for (at, id) in ids.iter().enumerate() {
        rank = rank * size_at(header, *id) + index[at];
    }
    rank
}

// The offset in the file of the first byte of a part of a variable.
#[tactic(auto, using(crate::proofs::OffsetLemmas::parts))]
pub(crate) fn part_begin_of(header: &Header, len: u64, recsize: u128, var: &NcVar, k: u64) -> u64
    requires recsize { recsize ≡ record_size header.now }
    requires within { IsWithin header.now len var.now }
    requires part { k < part_count header.now var.now }
    ensures exact { result ≡ part_begin header.now var.now k }
    ensures within { result + vsize header.now var.now ≤ len }
{
    (u128::from(var.begin) + u128::from(k) * recsize) as u64
}

// The offset of an element in its part.
#[tactic(auto, using(crate::proofs::OffsetLemmas::parts))]
fn offset_in_part(header: &Header, var: &NcVar, index: &[u64]) -> u64
    requires small { IsSmall header.now var.now }
    requires index { IsIndex (fixed_shape header.now var.now) index.now }
    ensures exact { result ≡ size_of var.now.kind * rank_in (fixed_shape header.now var.now) index.now }
    ensures within { result + size_of var.now.kind ≤ vsize header.now var.now }
{
    u64::from(var.kind.size()) * rank(header, fixed_dims(header, var), index)
}

// The number of the part in which an element lies, and its index list there.
fn split_index<'a>(header: &Header, var: &NcVar, index: &'a [u64]) -> (u64, &'a [u64])
    requires { IsIndex (shape_of header.now var.now) index.now }
    ensures part { result.0 ≡ part_of header.now var.now index.now }
    ensures rest { result.1.now ≡ index_in_part header.now var.now index.now }
{
    if is_record_var(header, var) {
        let (_, rest) = index.split_at(1);
        (index[0], rest)
    } else {
        (0, index)
    }
}

// The offset in the file of the first byte of an element of a variable.
#[tactic(auto, using(crate::proofs::OffsetLemmas::offsets))]
pub(crate) fn offset_of(header: &Header, len: u64, recsize: u128, var: &NcVar, index: &[u64]) -> u64
    requires recsize { recsize ≡ record_size header.now }
    requires within { IsWithin header.now len var.now }
    requires index { IsIndex (shape_of header.now var.now) index.now }
    ensures exact { result ≡ offset_of header.now var.now index.now }
    ensures within { result + size_of var.now.kind ≤ len }
{
    let (part, rest) = split_index(header, var, index);
    part_begin_of(header, len, recsize, var, part) + offset_in_part(header, var, rest)
}
