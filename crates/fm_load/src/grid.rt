//! Coordinate variables, which a file has as the prototype has them.
ghost use Rattle.std.specs.Prelude.{◌≡◌};
ghost use Rattle.fm_base.specs.Answer.{Answers};
ghost use Rattle.fm_model.specs.LoadVars as spec;

use crate::axis::{file_var, unless_alike};
use crate::lengths::same_lengths;
use fm_base::{Bytes, Fail};
use fm_file::is_same_kind;
use fm_grid::same_bytes;
use fm_model::{LoadFault, Proto, ProtoVar};
use nc_array::FileView;
use nc_model::{Header, NcVar};
use std::alloc::Global;

// Whether a coordinate variable is like the prototype's: the same kind and lengths.
#[tactic(auto, unfolding(fm_model::specs::LoadVars::is_like_fixed))]
fn is_like_fixed(proto: &Proto, header: &Header, wanted: &ProtoVar, var: &NcVar) -> bool
    ensures { result ≡ spec.is_like_fixed proto.now header.now wanted.now var.now }
{
    is_same_kind(wanted.kind, var.kind)
        && same_lengths(proto, wanted.dims.as_slice(), header, var.dims.as_slice())
}

// The file's coordinate variable has the prototype's elements.
#[tactic(auto, unfolding(fm_model::specs::LoadVars::same_grid))]
pub(crate) fn same_grid(
    alloc: Global,
    proto: &Proto,
    file: &FileView<'_>,
    wanted: &ProtoVar,
) -> Result<(), Fail<LoadFault>>
    ensures { Answers (spec.same_grid proto.now file.now.bytes file.now.layout.header wanted.now) result }
{
    let name = wanted.name.as_slice();
    let (number, var) = file_var(alloc, file, name)?;
    let alike = is_like_fixed(proto, file.header(), wanted, var);
    unless_alike(alloc, alike, name)?;
    let mut elements = Bytes::new(alloc);
    file.append_elements(number, &mut elements)?;
    same_bytes(alloc, name, wanted.fixed.as_slice(), elements.as_slice())
}
