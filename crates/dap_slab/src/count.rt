//! How many indices slabs pick.
ghost use Rattle.std.specs.Prelude.{◌≡◌, ◌^◌, ◌<◌, All};
ghost use Rattle.dap_model.specs.Box.{box_len, slab_count as count_of, HasStride};
ghost use Rattle.dap_slab.specs.Walking.{HasIndex};

use dap_model::Slab;

// How many indices a slab picks: none where its start is past its stop.
#[tactic(auto, unfolding(dap_model::specs::Box::slab_count))]
fn count(slab: Slab) -> u128
    requires { HasStride slab }
    ensures { result ≡ count_of slab }
{
    if slab.start > slab.stop {
        return 0;
    }
    u128::from((slab.stop - slab.start) / slab.stride) + 1
}

/// How many indices a slab picks, of one that picks fewer than 2^64.
pub fn slab_count(slab: Slab) -> u64
    requires stride { HasStride slab }
    requires few { count_of slab < 2 ^ 64 }
    ensures { result ≡ count_of slab }
{
    count(slab) as u64
}

/// How many index lists slabs pick: the product of their counts. It is 1 for no slab.
pub fn slab_len(slabs: &[Slab]) -> u128
    requires index { All HasIndex slabs.now }
    requires few { box_len slabs.now < 2 ^ 128 }
    ensures { result ≡ box_len slabs.now }
{
    let mut len = 1;
    for slab in slabs {
        len *= count(*slab);
    }
    len
}
