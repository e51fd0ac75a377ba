//! How many index lists slabs pick, how many of them stand together, and how these follow each other.
ghost use Rattle.std.specs.Prelude.{◌≡◌, ◌*◌, ◌<◌, ◌≤◌, ◌^◌, IsTrue, map, All};
ghost use Rattle.std.specs.List.{AllZip};
ghost use Rattle.nc_model.specs.Layout.{product};
ghost use Rattle.dap_model.specs.Box.{slab_count, HasStride};
ghost use Rattle.dap_model.specs.ProjectionFacts.{FitsDim};
ghost use Rattle.dap_xdr.specs.Stretch.{begins_turns, extent_before, extent_of, goes_on, is_whole, stands_together, turns_with};

use dap_model::Slab;
use dap_slab::slab_count;
use nc_model::Dim;

// How many index lists slabs pick, and how many the array has; how many of them stand together as a unit, how many
// units follow each other at one distance, and that distance; and whether each slab is whole.
#[derive(Clone, Copy)]
pub(crate) struct Extent {
    pub count: u64,
    pub size: u64,
    pub unit: u64,
    pub turns: u64,
    pub pitch: u64,
    pub whole: bool,
}

// Whether a slab is the whole of a dimension of this size.
#[tactic(auto, unfolding(crate::specs::Stretch::is_whole))]
fn is_whole(size: u64, slab: Slab) -> bool
    ensures { result ≡ is_whole size slab }
{
    slab.start == 0 && slab.stride == 1 && size > 0 && slab.stop == size - 1
}

// Whether what a slab picks stands together with all that is picked behind it.
fn stands_together(slab: Slab, extent: Extent) -> bool
    ensures { result ≡ stands_together slab extent }
{
    slab.stride == 1 && extent.whole
}

// Whether what is picked behind a slab is one unit, which the slab picks more than once.
fn begins_turns(slab: Slab, extent: Extent) -> bool
    requires stride { HasStride slab }
    requires few { slab_count slab < 2 ^ 64 }
    ensures value { result ≡ begins_turns slab extent }
    ensures many { IsTrue result → 1 < slab_count slab }
{
    extent.unit == extent.count && slab_count(slab) > 1
}

// How far behind each other in the array the units are that a slab picks, of which it picks more than one.
fn pitch_of(extent: Extent, size: u64, slab: Slab) -> u64
    requires stride { HasStride slab }
    requires within { slab.start ≤ slab.stop → slab.stop < size }
    requires many { 1 < slab_count slab }
    requires sizes { size * extent.size < 2 ^ 64 }
    ensures { result ≡ slab.stride * extent.size }
{
    slab.stride * extent.size
}

// Whether all that is picked behind a slab is one run of turns, which goes on with the next index of the slab.
fn goes_on(slab: Slab, extent: Extent) -> bool
    ensures { result ≡ goes_on slab extent }
{
    let units = extent.turns as u128 * extent.unit as u128;
    let passed = extent.turns as u128 * extent.pitch as u128;
    let next = slab.stride as u128 * extent.size as u128;
    extent.unit > 0 && units == extent.count as u128 && passed == next
}

// How many units follow each other with a slab before them that picks `indices` indices: more where they go on with it.
fn turns_with(extent: Extent, slab: Slab, indices: u64) -> u64
    requires indices { indices ≡ slab_count slab }
    requires few { indices * extent.count < 2 ^ 64 }
    ensures { result ≡ turns_with slab extent }
{
    if goes_on(slab, extent) {
        let turns = indices * extent.turns;
        return turns;
    }
    extent.turns
}

// The extent with the slab of one dimension more before it.
fn with_slab(extent: Extent, size: u64, slab: Slab) -> Extent
    requires stride { HasStride slab }
    requires within { slab.start ≤ slab.stop → slab.stop < size }
    requires few { size * extent.count < 2 ^ 64 }
    requires sizes { size * extent.size < 2 ^ 64 }
    ensures { result ≡ extent_before size slab extent }
{
    let indices = slab_count(slab);
    let count = indices * extent.count;
    let elements = size * extent.size;
    let whole = is_whole(size, slab) && extent.whole;
    if stands_together(slab, extent) {
        return Extent {
            count,
            size: elements,
            unit: count,
            turns: 1,
            pitch: 0,
            whole,
        };
    }
    if begins_turns(slab, extent) {
        return Extent {
            count,
            size: elements,
            unit: extent.unit,
            turns: indices,
            pitch: pitch_of(extent, size, slab),
            whole,
        };
    }
    Extent {
        count,
        size: elements,
        unit: extent.unit,
        turns: turns_with(extent, slab, indices),
        pitch: extent.pitch,
        whole,
    }
}

// The extent of slabs that fit dimensions.
#[tactic(auto, using(crate::proofs::ExtentLemmas::extents))]
pub(crate) fn extent_of(dims: &[Dim], slabs: &[Slab]) -> Extent
    requires fits { AllZip FitsDim dims.now slabs.now }
    requires sizes { All (λ dim. 1 ≤ dim.size) dims.now }
    requires few { product (map (λ dim. dim.size) dims.now) < 2 ^ 64 }
    ensures { result ≡ extent_of dims.now slabs.now }
{
    let mut extent = Extent {
        count: 1,
        size: 1,
        unit: 1,
        turns: 1,
        pitch: 0,
        whole: true,
    };
    let mut at = slabs.len();
    while at > 0 {
        at -= 1;
        extent = with_slab(extent, dims[at].size, slabs[at]);
    }
    extent
}
