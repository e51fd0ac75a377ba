//! Slabs that parts share.
ghost use Rattle.std.specs.Prelude.{◌≡◌, IfOk, IsTrue};
ghost use Rattle.dap_model.specs.Picking.{or_whole, whole_slabs};

use crate::slabs::{are_whole, whole_slabs};
use dap_model::{Sent, Slab};
use fm_base::{Arc, List, NoMemory};
use nc_model::Dim;
use std::alloc::Global;

// The part that stands this many before the next one. Where the declaration before has as many parts as the next
// one's, it is the part of the same number.
pub(crate) fn part_before(sent: &[Sent], count: usize) -> Option<&Sent> {
    match sent.len().checked_sub(count) {
        Some(at) => sent.get(at),
        None => None,
    }
}

// Whether two lists of slabs are the same.
#[tactic(auto, using(crate::proofs::SlotLemmas::same_slabs))]
fn are_same(first: &[Slab], second: &[Slab]) -> bool
    ensures { IsTrue result → first.now ≡ second.now }
{
    first == second
}

// Whether slabs are the whole of each dimension.
#[tactic(auto, using(crate::proofs::SlotLemmas::same_slabs))]
fn are_all(dims: &[Dim], slabs: &[Slab]) -> bool
    ensures { IsTrue result → slabs.now ≡ whole_slabs dims.now }
{
    are_whole(dims, slabs)
}

// These slabs, shared with an earlier part that has the same. None stand for the whole of each dimension.
pub(crate) fn slabs_shared(
    alloc: Global,
    dims: &[Dim],
    slabs: &[Slab],
    earlier: Option<&Sent>,
) -> Result<Arc<List<Slab>>, NoMemory>
    ensures { IfOk result (λ list. list ≡ or_whole dims.now slabs.now) }
{
    if slabs.is_empty() {
        return whole_shared(alloc, dims, earlier);
    }
    if let Some(part) = earlier {
        if are_same(part.slabs(), slabs) {
            return part.slabs.share();
        }
    }
    let items = Vec::from_slice(alloc, slabs)?;
    Arc::new(alloc, List { items })
}

// The whole of each dimension, shared with an earlier part that has the same.
pub(crate) fn whole_shared(
    alloc: Global,
    dims: &[Dim],
    earlier: Option<&Sent>,
) -> Result<Arc<List<Slab>>, NoMemory>
    ensures { IfOk result (λ list. list ≡ whole_slabs dims.now) }
{
    if let Some(part) = earlier {
        if are_all(dims, part.slabs()) {
            return part.slabs.share();
        }
    }
    let slabs = whole_slabs(alloc, dims)?;
    Arc::new(alloc, slabs)
}
