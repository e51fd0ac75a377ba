//! The index lists of an array in row-major order.
ghost use Rattle.std.specs.Prelude.{◌≡◌, All, Some, length, map, slice_get};
ghost use Rattle.std.specs.List.{range_with_len};
ghost use Rattle.nc_model.specs.Layout.{product, rank_in, indices_of, IsIndex};

/// The index lists of an array in row-major order have the numbers 0, 1, 2 and so on, so there are as many as the
/// array has elements.
#[tactic(auto, using(crate::proofs::OrderLemmas::orders))]
pub fn ranks_rise_by_one(shape: &[u64])
    ensures ranks { map (rank_in shape.now) (indices_of shape.now)
        ≡ range_with_len 0 (product shape.now) }
    ensures count { length (indices_of shape.now) ≡ product shape.now }
{}

/// Each index list of an array stands among all of them, at its own number, and nothing else stands there.
#[tactic(auto, using(crate::proofs::OrderLemmas::orders))]
pub fn index_stands_at_its_rank(shape: &[u64], index: &[u64])
    ensures there { IsIndex shape.now index.now
        → slice_get (indices_of shape.now) (rank_in shape.now index.now) ≡ Some index.now }
    ensures only { All (IsIndex shape.now) (indices_of shape.now) }
{}
