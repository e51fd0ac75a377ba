//! Slabs pick the indices that lie whole strides from their start, and a box has the index lists that its slabs pick.
ghost use Rattle.std.specs.Prelude.{◌≡◌, ℕ, ◌<◌, ◌↔◌, Some, length, map, slice_get, All, Contains};
ghost use Rattle.std.specs.List.Sorted.{IsStrictlyIncreasing};
ghost use Rattle.nc_model.specs.Layout.{indices_of, product};
ghost use Rattle.dap_model.specs.Box.{box_len, box_of, index_at, slab_count, slab_indices};
ghost use Rattle.dap_model.specs.Box.{whole_slab, HasStride, Picks, EachPicks};

use crate::projection::Slab;

/// The indices of a slab are those from its start to its stop that lie a whole number of strides from its start. They
/// rise, and there are as many as its count says.
pub fn slab_picks(slab: Slab, index: u64)
    requires { HasStride slab }
    ensures indices { Contains (slab_indices slab) index ↔ Picks slab index }
    ensures order { IsStrictlyIncreasing (slab_indices slab) }
    ensures count { length (slab_indices slab) ≡ slab_count slab }
{}

/// The index lists of a box are those whose indices are each picked by the slab of their dimension, and there are as
/// many as the product of the counts of the slabs.
pub fn box_picks(slabs: &[Slab], index: &[u64])
    requires { All HasStride slabs.now }
    ensures indices { Contains (box_of slabs.now) index.now ↔ EachPicks slabs.now index.now }
    ensures count { length (box_of slabs.now) ≡ box_len slabs.now }
{}

/// The index list of an element of a box is found by division, and no two elements have the same.
pub fn box_elements(slabs: &[Slab])
    requires { All HasStride slabs.now }
    ensures found { (element : ℕ) → element < box_len slabs.now
        → slice_get (box_of slabs.now) element ≡ Some (index_at slabs.now element) }
    ensures distinct { (element other : ℕ) → element < box_len slabs.now → other < box_len slabs.now
        → index_at slabs.now element ≡ index_at slabs.now other → element ≡ other }
{}

/// The box of whole dimensions is all index lists of the array.
pub fn whole_box(shape: &[u64])
    ensures indices { box_of (map whole_slab shape.now) ≡ indices_of shape.now }
    ensures count { box_len (map whole_slab shape.now) ≡ product shape.now }
{}
