//! The index list of an element of a box.
ghost use Rattle.std.specs.Prelude.{◌≡◌, ◌<◌, length, All};
ghost use Rattle.dap_model.specs.Box.{box_len, index_at, slab_count, slab_index, HasStride};

use crate::count::slab_count;
use dap_model::Slab;

// The index some strides past a slab's start.
#[tactic(auto, using(crate::proofs::ElementLemmas::indices))]
fn index_in(slab: Slab, strides: u64) -> u64
    requires stride { HasStride slab }
    requires strides { strides < slab_count slab }
    ensures { result ≡ slab_index slab strides }
{
    slab.start + strides * slab.stride
}

/// Writes the index list of an element among those that slabs pick, in row-major order; `count` is how many they pick.
pub fn put_index(slabs: &[Slab], count: u64, element: u64, index: &mut [u64])
    requires stride { All HasStride slabs.now }
    requires count { count ≡ box_len slabs.now }
    requires element { element < count }
    requires room { length index.old ≡ length slabs.now }
    ensures { index.new ≡ index_at slabs.now element }
{
    let mut others = count;
    let mut rest = element;
    for (at, slab) in slabs.iter().enumerate() {
        others /= slab_count(*slab);
        index[at] = index_in(*slab, rest / others);
        rest %= others;
    }
}
