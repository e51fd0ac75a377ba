//! The slabs that a clause gives to the parts of a declaration.
ghost use Rattle.std.specs.Prelude.{◌≡◌, IfOk, MatchOption, None, Some};
ghost use Rattle.std.specs.Cmp.Lexicographic.{pointwise};
ghost use Rattle.dap_model.specs.Box as boxes;
ghost use Rattle.dap_model.specs.ClauseFaults.{is_same_slab};
ghost use Rattle.dap_model.specs.Picking as spec;
ghost use Rattle.dap_model.specs.declared.declaration.Decl as declarations;
ghost use Rattle.dap_project.specs.Notes.{picked_of};

use crate::picked::Choice;
use dap_model::Slab;
use fm_base::{List, NoMemory};
use nc_model::Dim;
use std::alloc::Global;

// The slab of a whole dimension.
#[tactic(auto, unfolding(dap_model::specs::Box::whole_slab))]
fn whole_slab(size: u64) -> Slab
    ensures { result ≡ boxes.whole_slab size }
{
    if size == 0 {
        Slab {
            start: 1,
            stride: 1,
            stop: 0,
        }
    } else {
        Slab {
            start: 0,
            stride: 1,
            stop: size - 1,
        }
    }
}

// The whole of each dimension.
#[tactic(auto, unfolding(dap_model::specs::Picking::whole_slabs))]
pub(crate) fn whole_slabs(alloc: Global, dims: &[Dim]) -> Result<List<Slab>, NoMemory>
    ensures { IfOk result (λ slabs. slabs ≡ spec.whole_slabs dims.now) }
{
    let items = Vec::with_capacity(alloc, dims.len())?;
    let mut slabs = List { items };
    for dim in dims {
        slabs.push(whole_slab(dim.size))?;
    }
    Ok(slabs)
}

// Whether two slabs are the same.
fn is_same(slab: Slab, other: Slab) -> bool
    ensures { result ≡ is_same_slab slab other }
{
    slab == other
}

// Whether slabs are the whole of each dimension.
pub(crate) fn are_whole(dims: &[Dim], slabs: &[Slab]) -> bool
    ensures { result ≡ pointwise is_same_slab slabs.now (spec.whole_slabs dims.now) }
{
    if slabs.len() != dims.len() {
        return false;
    }
    for at in 0..dims.len() {
        if !is_same(slabs[at], whole_slab(dims[at].size)) {
            return false;
        }
    }
    true
}

// Whether slabs for a part of these dimensions are the same. None stand for the whole of each dimension.
#[tactic(auto, using(crate::proofs::SlotLemmas::alike))]
pub(crate) fn are_alike(dims: &[Dim], first: &[Slab], second: &[Slab]) -> bool
    ensures { result ≡ pointwise is_same_slab (spec.or_whole dims.now first.now) (spec.or_whole dims.now second.now) }
{
    match (first.is_empty(), second.is_empty()) {
        (true, true) => true,
        (true, false) => are_whole(dims, second),
        (false, true) => are_whole(dims, first),
        (false, false) => first == second,
    }
}

// What goes to a part of the slabs of a declaration.
fn spread(slabs: &[Slab], part: usize) -> &[Slab]
    ensures { result.now ≡ spec.spread slabs.now part }
{
    if part == 0 {
        return slabs;
    }
    match slabs.get(part - 1..part) {
        Some(one) => one,
        None => &[],
    }
}

// What goes to a part of the slabs of a clause, where what is picked has the part. No slabs stand for the whole of each
// dimension.
pub(crate) fn given_for(slabs: &[Slab], part: usize, choice: Choice) -> Option<&[Slab]>
    ensures { (decl : declarations.Decl) → MatchOption result
        (spec.slabs_for decl slabs.now part (picked_of choice) ≡ None)
        (λ given. spec.slabs_for decl slabs.now part (picked_of choice)
        ≡ Some (spec.or_whole (spec.part_dims decl part) given.now)) }
{
    match choice {
        Choice::Nothing => None,
        Choice::Every => Some(spread(slabs, part)),
        Choice::Only(other) if other == part => Some(slabs),
        Choice::Only(_) => None,
    }
}
