//! Index lists, and the dimensions that they are over.
ghost use Rattle.std.specs.Prelude.{◌≡◌, ◌≤◌, All, map, slice_index};
ghost use Rattle.nc_model.specs.Layout.{product, rank_in, IsIndex};
ghost use Rattle.fm_dataset.specs.Kept.{length_at};
ghost use Rattle.fm_dataset.specs.Values.{row_dims, row_index};

use crate::array::after_first;
use fm_model::{Proto, ProtoVar};

// The first index, which picks a row of a variable along the axis.
pub(crate) fn first_of(index: &[u64]) -> u64
    ensures { result ≡ slice_index index.now 0 }
{
    match index {
        [] => 0,
        [first, ..] => *first,
    }
}

// The numbers of the dimensions along which the elements of one row lie.
pub(crate) fn row_dims(var: &ProtoVar) -> &[u32]
    ensures { result.now ≡ row_dims var.now }
{
    if var.timed {
        after_first(var.dims.as_slice())
    } else {
        var.dims.as_slice()
    }
}

// An index list within a row.
pub(crate) fn row_index<'a>(var: &ProtoVar, index: &'a [u64]) -> &'a [u64]
    ensures { result.now ≡ row_index var.now index.now }
{
    if !var.timed {
        return index;
    }
    match index {
        [] => index,
        [_, rest @ ..] => rest,
    }
}

// The length of the dimension of a number.
pub(crate) fn length_at(proto: &Proto, id: u32) -> u64
    ensures { result ≡ length_at proto.now id }
{
    match proto.dims.as_slice().get(id as usize) {
        None => 0,
        Some(dim) => dim.size,
    }
}

// The number of an index list in row-major order, over these dimensions, which have at most `most` elements.
#[tactic(auto, using(nc_layout::proofs::RankLemmas::ranks))]
pub(crate) fn rank(proto: &Proto, ids: &[u32], index: &[u64], most: u64) -> u64
    requires index { IsIndex (map (length_at proto.now) ids.now) index.now }
    requires most { product (map (length_at proto.now) ids.now) ≤ most }
    ensures { result ≡ rank_in (map (length_at proto.now) ids.now) index.now }
{
    let mut rank = 0;
    for (at, id) in ids.iter().enumerate() {
        rank = rank * length_at(proto, *id) + index[at];
    }
    rank
}

// How many elements these dimensions have: at most `most`.
#[tactic(auto, using(nc_layout::proofs::ProductLemmas::products, crate::proofs::CountLemmas::product_so_far))]
pub(crate) fn count_in(proto: &Proto, ids: &[u32], most: u64) -> u64
    requires some { All (λ n. 1 ≤ n) (map (length_at proto.now) ids.now) }
    requires most { product (map (length_at proto.now) ids.now) ≤ most }
    ensures { result ≡ product (map (length_at proto.now) ids.now) }
{
    let mut count = 1;
    for id in ids {
        count *= length_at(proto, *id);
    }
    count
}
