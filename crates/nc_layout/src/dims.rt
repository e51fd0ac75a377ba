//! The dimensions of a header's variables.
ghost use Rattle.std.specs.Prelude.{◌≡◌, map};
ghost use Rattle.nc_model.specs.Layout.{size_at, is_record_var, fixed_shape};
ghost use Rattle.nc_model.specs.Reading.{names_record_dim};
ghost use Rattle.nc_layout.specs.LaidOut.{part_count};

use nc_model::{Dim, Header, NcVar};

/// The length of the dimension of this number. That of the records is their number.
pub fn size_at(header: &Header, id: u32) -> u64
    ensures { result ≡ size_at header.now id }
{
    match header.dims.as_slice().get(id as usize) {
        None => 0,
        Some(dim) if dim.size == 0 => u64::from(header.numrecs),
        Some(dim) => dim.size,
    }
}

/// Whether this is the number of the record dimension.
#[tactic(auto, unfolding(nc_model::specs::Reading::names_record_dim))]
pub fn names_record_dim(dims: &[Dim], id: u32) -> bool
    ensures { result ≡ names_record_dim dims.now id }
{
    dims.get(id as usize).is_some_and(|dim| dim.size == 0)
}

// Whether the first dimension of a variable is the record dimension.
pub(crate) fn is_record_var(header: &Header, var: &NcVar) -> bool
    ensures { result ≡ is_record_var header.now var.now }
{
    match var.dims.as_slice().first() {
        None => false,
        Some(id) => names_record_dim(header.dims.as_slice(), *id),
    }
}

// The numbers of a variable's dimensions but for the record dimension.
#[tactic(auto, using(crate::proofs::HeaderLemmas::shapes))]
pub(crate) fn fixed_dims<'a>(header: &Header, var: &'a NcVar) -> &'a [u32]
    ensures { map (size_at header.now) result.now ≡ fixed_shape header.now var.now }
{
    let ids = var.dims.as_slice();
    if is_record_var(header, var) {
        let (_, fixed) = ids.split_at(1);
        fixed
    } else {
        ids
    }
}

// The number of parts in which a variable's elements lie: one for each record, or one where it has no records.
pub(crate) fn part_count_of(header: &Header, var: &NcVar) -> u32
    ensures { result ≡ part_count header.now var.now }
{
    if is_record_var(header, var) {
        header.numrecs
    } else {
        1
    }
}
