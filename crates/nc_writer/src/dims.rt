//! The dimensions of a file: those of its variables, in the order of their first use.
ghost use Rattle.std.specs.Prelude.{◌≡◌, ◌≤◌, [], IfOk, length};
ghost use Rattle.std.specs.List.{list_any};
ghost use Rattle.fm_base.specs.Answer.{Answers};
ghost use Rattle.nc_writer.specs.Dims as spec;
ghost use Rattle.nc_writer.specs.Facts.{Adds};

use crate::fault::WriteFault;
use crate::text::{characters_name, is_text};
use crate::variable::Variable;
use fm_base::{Bytes, Fail, List, NoMemory};
use nc_model::Dim;
use std::alloc::Global;

// The number of the first dimension of a name, or how many there are.
pub(crate) fn dim_number(dims: &[Dim], name: &[u8]) -> usize
    ensures number { result ≡ spec.dim_number dims.now name.now }
    ensures within { result ≤ length dims.now }
{
    let mut left = dims;
    let mut at = 0;
    while let [dim, others @ ..] = left {
        if dim.name.as_slice() == name {
            return at;
        }
        left = others;
        at += 1;
    }
    at
}

// Whether the dimension of a name has this size, where there is one.
#[tactic(auto, unfolding(crate::specs::Dims::has_size))]
fn has_size(found: &[Dim], name: &[u8], size: u64) -> Option<bool>
    ensures { result ≡ spec.has_size found.now name.now size }
{
    for dim in found {
        if dim.name.as_slice() == name {
            return Some(dim.size == size);
        }
    }
    None
}

fn copy_dim(alloc: Global, dim: &Dim) -> Result<Dim, NoMemory>
    ensures { IfOk result (λ copy. copy ≡ dim.now) }
{
    Ok(Dim {
        name: Bytes::copy_of(alloc, dim.name.as_slice())?,
        size: dim.size,
    })
}

// Adds a dimension, unless one of its name stands already.
#[tactic(auto, unfolding(crate::specs::Dims::add_dim))]
fn add_dim(alloc: Global, dim: &Dim, found: &mut List<Dim>) -> Result<(), Fail<WriteFault>>
    ensures { Adds (spec.add_dim found.old dim.now) result found.new }
{
    let name = dim.name.as_slice();
    match has_size(found.as_slice(), name, dim.size) {
        Some(true) => Ok(()),
        Some(false) => Err(Fail::Fault(WriteFault::SizesDiffer(Bytes::copy_of(alloc, name)?))),
        None => {
            found.push(copy_dim(alloc, dim)?)?;
            Ok(())
        }
    }
}

// Adds dimensions, each unless one of its name stands already.
#[tactic(auto, using(crate::proofs::DimLemmas::additions))]
fn add_dims(alloc: Global, dims: &[Dim], found: &mut List<Dim>) -> Result<(), Fail<WriteFault>>
    ensures { Adds (spec.add_dims found.old dims.now) result found.new }
{
    for dim in dims {
        add_dim(alloc, dim, found)?;
    }
    Ok(())
}

// The dimensions of variables, or the first name that stands with two sizes.
#[tactic(auto, using(crate::proofs::DimLemmas::uses))]
pub(crate) fn dims_of(alloc: Global, variables: &[Variable]) -> Result<List<Dim>, Fail<WriteFault>>
    ensures { Answers (spec.dims_from [] variables.now) result }
{
    let mut found = List::new(alloc);
    for variable in variables {
        add_dims(alloc, variable.dims.as_slice(), &mut found)?;
    }
    Ok(found)
}

// Whether a variable has a dimension of this name before that of its characters.
fn declares(name: &[u8], variable: &Variable) -> bool
    ensures { result ≡ spec.declares name.now variable.now }
{
    dim_number(variable.dims.as_slice(), name) < variable.sent.slabs().len()
}

// Whether some variable has a dimension of this name before that of its characters.
fn is_declared(name: &[u8], all: &[Variable]) -> bool
    ensures { result ≡ list_any (spec.declares name.now) all.now }
{
    for variable in all {
        if declares(name, variable) {
            return true;
        }
    }
    false
}

// Refuses a variable whose dimension of characters has the name of another dimension.
#[tactic(auto, unfolding(crate::specs::Dims::is_taken))]
fn check_name(alloc: Global, variable: &Variable, all: &[Variable]) -> Result<(), Fail<WriteFault>>
    ensures { Answers (spec.name_free all.now variable.now) result }
{
    if !is_text(variable.kind) {
        return Ok(());
    }
    let name = characters_name(alloc, variable.name.as_slice())?;
    if is_declared(name.as_slice(), all) {
        return Err(Fail::Fault(WriteFault::NameTaken(name)));
    }
    Ok(())
}

// Refuses the first of some variables whose dimension of characters has the name of another dimension.
#[tactic(auto, using(crate::proofs::DimLemmas::names))]
pub(crate) fn check_names(
    alloc: Global,
    variables: &[Variable],
    all: &[Variable],
) -> Result<(), Fail<WriteFault>>
    ensures { Answers (spec.names_free all.now variables.now) result }
{
    for variable in variables {
        check_name(alloc, variable, all)?;
    }
    Ok(())
}
