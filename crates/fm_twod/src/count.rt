//! How many index lists slabs pick.
ghost use Rattle.std.specs.Prelude.{◌≡◌, ◌*◌, ◌<◌, ◌≤◌, ◌^◌, map, All};
ghost use Rattle.std.specs.List.{AllZip};
ghost use Rattle.nc_model.specs.Layout.{product};
ghost use Rattle.dap_model.specs.Box.{box_len, slab_count, HasStride};
ghost use Rattle.dap_model.specs.ProjectionFacts.{FitsDim};

use dap_model::Slab;
use dap_slab::slab_count;
use nc_model::Dim;

// How many index lists there are with the slab of one dimension more before those that pick `count`.
fn with_slab(count: u64, size: u64, slab: Slab) -> u64
    requires stride { HasStride slab }
    requires within { slab.start ≤ slab.stop → slab.stop < size }
    requires few { size * count < 2 ^ 64 }
    ensures { result ≡ slab_count slab * count }
{
    let indices = slab_count(slab);
    indices * count
}

// How many index lists slabs pick that fit dimensions.
#[tactic(auto, using(crate::proofs::SlabLemmas::counts))]
pub(crate) fn count_of(dims: &[Dim], slabs: &[Slab]) -> u64
    requires fits { AllZip FitsDim dims.now slabs.now }
    requires sizes { All (λ dim. 1 ≤ dim.size) dims.now }
    requires few { product (map (λ dim. dim.size) dims.now) < 2 ^ 64 }
    ensures { result ≡ box_len slabs.now }
{
    let mut count = 1;
    let mut at = slabs.len();
    while at > 0 {
        at -= 1;
        count = with_slab(count, dims[at].size, slabs[at]);
    }
    count
}
