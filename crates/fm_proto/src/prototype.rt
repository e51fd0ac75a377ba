//! A prototype, made of what it keeps of its file.
ghost use Rattle.std.specs.Prelude.{◌≡◌, ◌<◌, ◌^◌, IfOk, Some, [], if◌then◌else◌, length, map, slice_get};
ghost use Rattle.nc_model.specs.Layout.{elements_of};
ghost use Rattle.fm_model.specs.Prototype as spec;
ghost use Rattle.fm_proto.specs.Kept.{IsReferenceOf};

use crate::copies::{copy_attrs, copy_ids};
use crate::kept::is_shown;
use fm_base::{Bytes, List, NoMemory};
use fm_file::{dim_of_axis, lies_along};
use fm_model::{Proto, ProtoVar, Site};
use nc_array::FileView;
use nc_model::{Dim, Header, NcVar};
use std::alloc::Global;

fn dim_with_length(alloc: Global, header: &Header, dim: &Dim) -> Result<Dim, NoMemory>
    ensures { IfOk result (λ copy. copy ≡ spec.with_length header.now dim.now) }
{
    Ok(Dim {
        name: Bytes::copy_of(alloc, dim.name.as_slice())?,
        size: if dim.size == 0 {
            u64::from(header.numrecs)
        } else {
            dim.size
        },
    })
}

fn dims_with_lengths(alloc: Global, header: &Header) -> Result<List<Dim>, NoMemory>
    ensures { IfOk result (λ dims. dims ≡ map (spec.with_length header.now) header.now.dims) }
{
    let mut dims = List::new(alloc);
    for dim in header.dims.as_slice() {
        dims.push(dim_with_length(alloc, header, dim)?)?;
    }
    Ok(dims)
}

// The elements of a variable that doesn't lie along the axis.
fn fixed_of(alloc: Global, file: &FileView<'_>, number: u32, timed: bool) -> Result<Bytes, NoMemory>
    requires { number < length file.now.layout.header.vars }
    ensures { IfOk result (λ fixed. (var : _) → slice_get file.now.layout.header.vars number ≡ Some var
        → fixed ≡ (if timed then [] else elements_of file.now.bytes file.now.layout.header var)) }
{
    let mut fixed = Bytes::new(alloc);
    if !timed {
        file.append_elements(number, &mut fixed)?;
    }
    Ok(fixed)
}

// A variable of this number as the views show it.
#[tactic(auto, unfolding(fm_model::specs::Prototype::proto_var))]
fn proto_var(
    alloc: Global,
    file: &FileView<'_>,
    axis: &NcVar,
    number: u32,
    var: &NcVar,
) -> Result<ProtoVar, NoMemory>
    requires { slice_get file.now.layout.header.vars number ≡ Some var.now }
    ensures { IfOk result (λ kept. kept
        ≡ spec.proto_var file.now.bytes file.now.layout.header axis.now var.now) }
{
    let timed = lies_along(dim_of_axis(axis), var.dims.as_slice());
    Ok(ProtoVar {
        name: Bytes::copy_of(alloc, var.name.as_slice())?,
        kind: var.kind,
        dims: copy_ids(alloc, var.dims.as_slice())?,
        attrs: copy_attrs(alloc, var.attrs.as_slice())?,
        timed,
        fixed: fixed_of(alloc, file, number, timed)?,
    })
}

// The variables that the views show, as they show them.
#[tactic(auto, unfolding(fm_model::specs::Prototype::kept_vars))]
fn proto_vars(
    alloc: Global,
    file: &FileView<'_>,
    reference: Option<&NcVar>,
    axis: &NcVar,
) -> Result<List<ProtoVar>, NoMemory>
    requires few { length file.now.layout.header.vars < 2 ^ 32 }
    requires reference { IsReferenceOf file.now.layout.header reference }
    ensures { IfOk result (λ vars. vars
        ≡ map (spec.proto_var file.now.bytes file.now.layout.header axis.now)
        (spec.kept_vars file.now.layout.header axis.now)) }
{
    let mut vars = List::new(alloc);
    for (number, var) in file.header().vars.as_slice().iter().enumerate() {
        if is_shown(reference, axis, var) {
            vars.push(proto_var(alloc, file, axis, number as u32, var)?)?;
        }
    }
    Ok(vars)
}

// The prototype that a file is: its dimensions with their lengths, its attributes, and the variables that the views
// show. A variable that doesn't lie along the axis keeps its elements.
#[tactic(auto, unfolding(fm_model::specs::Prototype::proto_with))]
pub(crate) fn proto_with(
    alloc: Global,
    site: Site,
    file: &FileView<'_>,
    reference: Option<&NcVar>,
    axis: &NcVar,
) -> Result<Proto, NoMemory>
    requires few { length file.now.layout.header.vars < 2 ^ 32 }
    requires reference { IsReferenceOf file.now.layout.header reference }
    ensures { IfOk result (λ proto. proto
        ≡ spec.proto_with file.now.bytes site file.now.layout.header axis.now) }
{
    let header = file.header();
    Ok(Proto {
        site,
        axis: Bytes::copy_of(alloc, axis.name.as_slice())?,
        dims: dims_with_lengths(alloc, header)?,
        attrs: copy_attrs(alloc, header.attrs.as_slice())?,
        vars: proto_vars(alloc, file, reference, axis)?,
    })
}
