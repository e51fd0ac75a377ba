//! Whether a part is one of a dataset, with slabs that fit it.
ghost use Rattle.std.specs.Prelude.{◌↔◌, IsSomeAnd, IsTrue};
ghost use Rattle.std.specs.List.{AllZip};
ghost use Rattle.dap_model.specs.ProjectionFacts.{FitsDim};
ghost use Rattle.dap_xdr.specs.Content.{array_in, FitsArray};
ghost use Rattle.dap_xdr.specs.Datasets.{content_of};

use dap_model::{Sent, Slab};
use dap_slab::part_of;
use fm_dataset::Dataset;
use nc_model::Dim;

// Whether a slab has a stride, and its indices lie within a dimension.
fn fits_dim(dim: &Dim, slab: Slab) -> bool
    ensures { IsTrue result ↔ FitsDim dim.now slab }
{
    slab.stride >= 1 && (slab.start > slab.stop || slab.stop < dim.size)
}

// Whether there is one slab for each dimension, which fits it.
#[tactic(auto, using(crate::proofs::FitLemmas::as_many))]
fn fit_dims(dims: &[Dim], slabs: &[Slab]) -> bool
    ensures { IsTrue result ↔ AllZip FitsDim dims.now slabs.now }
{
    match (dims, slabs) {
        ([], []) => true,
        ([], [_, ..]) => false,
        ([_, ..], []) => false,
        ([dim, dims @ ..], [slab, slabs @ ..]) => fits_dim(dim, *slab) && fit_dims(dims, slabs),
    }
}

/// Whether a part is one of the dataset, with slabs that fit it, as the other calls ask.
#[tactic(auto, unfolding(crate::specs::Content::array_in))]
pub fn fits(set: &Dataset, sent: &Sent) -> bool
    ensures { IsTrue result
        ↔ IsSomeAnd (array_in (content_of set.now).decls sent.now.decl sent.now.part) (FitsArray sent.now) }
{
    let Some(decl) = set.decls().as_slice().get(sent.decl as usize) else {
        return false;
    };
    match part_of(decl, sent.part as usize) {
        Some(array) => fit_dims(array.dims.as_slice(), sent.slabs()),
        None => false,
    }
}
