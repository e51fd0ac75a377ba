//! Arrays as long as their slabs leave them.
ghost use Rattle.std.specs.Prelude.{◌≡◌, IfOk, map};
ghost use Rattle.std.specs.List.{zip};
ghost use Rattle.dap_model.specs.Box as boxes;
ghost use Rattle.dap_model.specs.Picking.{or_whole};
ghost use Rattle.dap_model.specs.Projection as spec;
ghost use Rattle.dap_project.specs.Checks.{AreCuts, IsCut};

use dap_model::{Array, Slab};
use dap_slab::slab_count;
use fm_base::{Bytes, List, NoMemory};
use nc_model::Dim;
use std::alloc::Global;

// The indices of a slab that can be cut from a dimension of this size. They are no more than the size, or countable.
pub(crate) fn cut_size(size: u64, slab: Slab) -> u64
    requires { IsCut size slab }
    ensures { result ≡ boxes.slab_count slab }
{
    slab_count(slab)
}

// A dimension as long as its slab has indices.
fn cut_dim(alloc: Global, dim: &Dim, slab: Slab) -> Result<Dim, NoMemory>
    requires { IsCut dim.now.size slab }
    ensures { IfOk result (λ cut. cut ≡ spec.cut_dim (dim.now, slab)) }
{
    let size = cut_size(dim.size, slab);
    let name = Bytes::copy_of(alloc, dim.name.as_slice())?;
    Ok(Dim { name, size })
}

/// Dimensions as long as their slabs have indices. The caller has slabs that can be cut from them.
pub fn cut_dims(alloc: Global, dims: &[Dim], slabs: &[Slab]) -> Result<List<Dim>, NoMemory>
    requires { AreCuts dims.now slabs.now }
    ensures { IfOk result (λ cut. cut ≡ map spec.cut_dim (zip dims.now slabs.now)) }
{
    let items = Vec::with_capacity(alloc, dims.len())?;
    let mut cut = List { items };
    let mut at = 0;
    while at < dims.len() && at < slabs.len() {
        cut.push(cut_dim(alloc, &dims[at], slabs[at])?)?;
        at += 1;
    }
    Ok(cut)
}

// Dimensions as they are.
fn copied_dims(alloc: Global, dims: &[Dim]) -> Result<List<Dim>, NoMemory>
    ensures { IfOk result (λ copy. copy ≡ dims.now) }
{
    let items = Vec::with_capacity(alloc, dims.len())?;
    let mut copy = List { items };
    for dim in dims {
        let name = Bytes::copy_of(alloc, dim.name.as_slice())?;
        let size = dim.size;
        copy.push(Dim { name, size })?;
    }
    Ok(copy)
}

// Dimensions as long as slabs leave them. None stand for the whole of each dimension.
#[tactic(auto, using(crate::proofs::CutLemmas::whole_cut, crate::proofs::SlotLemmas::some_whole))]
fn cut_or_copied(alloc: Global, dims: &[Dim], slabs: &[Slab]) -> Result<List<Dim>, NoMemory>
    requires { AreCuts dims.now (or_whole dims.now slabs.now) }
    ensures { IfOk result (λ cut. cut ≡ map spec.cut_dim (zip dims.now (or_whole dims.now slabs.now))) }
{
    if slabs.is_empty() {
        return copied_dims(alloc, dims);
    }
    cut_dims(alloc, dims, slabs)
}

// An array with the lengths that slabs leave. None stand for the whole of each dimension.
#[tactic(auto, unfolding(dap_model::specs::Projection::cut_array))]
pub(crate) fn cut_array(alloc: Global, array: &Array, slabs: &[Slab]) -> Result<Array, NoMemory>
    requires { AreCuts array.now.dims (or_whole array.now.dims slabs.now) }
    ensures { IfOk result (λ cut. cut ≡ spec.cut_array (or_whole array.now.dims slabs.now) array.now) }
{
    let dims = cut_or_copied(alloc, array.dims.as_slice(), slabs)?;
    let name = Bytes::copy_of(alloc, array.name.as_slice())?;
    Ok(Array {
        name,
        kind: array.kind,
        dims,
    })
}
