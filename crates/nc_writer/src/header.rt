//! The header of a file.
ghost use Rattle.std.specs.Prelude.{◌≡◌, ◌++◌, ◌^◌, ◌<◌, All, IfOk, OnOk, length};
ghost use Rattle.std.specs.List.{flat_map};
ghost use Rattle.nc_writer.specs.Data as values;
ghost use Rattle.nc_writer.specs.Facts.{IsVariableOf};
ghost use Rattle.nc_writer.specs.Header as spec;

use crate::attributes::attributes_of;
use crate::data::data_len;
use crate::fields::{
    VARIABLES, code_of, put_attrs, put_begin, put_dims, put_list, put_var_front, put_word,
};
use crate::variable::Variable;
use dap_model::DapKind;
use fm_base::{Bytes, NoMemory};
use fm_dataset::Dataset;
use nc_model::{Dim, Kind};
use std::alloc::Global;

// The kind that values have in a file.
#[tactic(auto, unfolding(crate::specs::Data::file_kind))]
fn file_kind(kind: DapKind) -> Kind
    ensures { result ≡ values.file_kind kind }
{
    match kind {
        DapKind::Byte => Kind::Byte,
        DapKind::Int16 => Kind::Short,
        DapKind::Int32 => Kind::Int,
        DapKind::Float32 => Kind::Float,
        DapKind::Float64 => Kind::Double,
        DapKind::Text => Kind::Char,
    }
}

// The fields after a variable's attributes: its kind, the bytes of its data, and their offset.
#[tactic(auto, unfolding(crate::specs::Header::var_end))]
fn put_var_end(
    source: &Dataset,
    version: u8,
    variable: &Variable,
    begin: u128,
    out: &mut Bytes,
) -> Result<(), NoMemory>
    requires { IsVariableOf source.now variable.now }
    ensures { OnOk result (out.new ≡ out.old ++ spec.var_end version variable.now begin) }
{
    put_word(code_of(file_kind(variable.kind)), out)?;
    put_word(data_len(source, variable), out)?;
    put_begin(version, begin, out)
}

// A variable, with the offset of its data.
#[tactic(auto, unfolding(crate::specs::Header::placed_bytes, crate::specs::Header::placed_at, crate::specs::Header::var_of, crate::specs::Header::var_end))]
fn put_var(
    alloc: Global,
    source: &Dataset,
    version: u8,
    dims: &[Dim],
    variable: &Variable,
    begin: u128,
    out: &mut Bytes,
) -> Result<(), NoMemory>
    requires { IsVariableOf source.now variable.now }
    ensures { OnOk result (out.new ≡ out.old
        ++ spec.placed_bytes version (spec.placed_at source.now dims.now begin variable.now)) }
{
    let attrs = attributes_of(alloc, source, variable.name.as_slice())?;
    put_var_front(
        variable.name.as_slice(),
        dims,
        variable.dims.as_slice(),
        out,
    )?;
    put_attrs(attrs.as_slice(), out)?;
    put_var_end(source, version, variable, begin, out)
}

// Variables whose data stands one after the other from an offset on.
fn put_vars(
    alloc: Global,
    source: &Dataset,
    version: u8,
    dims: &[Dim],
    variables: &[Variable],
    begin: u128,
    out: &mut Bytes,
) -> Result<(), NoMemory>
    requires each { All (IsVariableOf source.now) variables.now }
    requires few { length variables.now < 2 ^ 28 }
    requires begin { begin < 2 ^ 64 }
    ensures { OnOk result (out.new ≡ out.old
        ++ flat_map (spec.placed_bytes version) (spec.placed_from source.now dims.now begin variables.now)) }
{
    let mut at = begin;
    for variable in variables {
        put_var(alloc, source, version, dims, variable, at, out)?;
        at += data_len(source, variable);
    }
    Ok(())
}

// What stands before the variables.
#[tactic(auto, unfolding(crate::specs::Header::before_vars))]
fn put_before_vars(
    source: &Dataset,
    version: u8,
    dims: &[Dim],
    count: usize,
    out: &mut Bytes,
) -> Result<(), NoMemory>
    ensures { OnOk result (out.new ≡ out.old
        ++ spec.before_vars version dims.now source.now.proto.attrs count) }
{
    out.append(b"CDF")?;
    out.push(version)?;
    put_word(0, out)?;
    put_dims(dims, out)?;
    put_attrs(source.proto().get().attrs.as_slice(), out)?;
    put_list(VARIABLES, count, out)
}

// The header of variables whose data begins at an offset.
#[tactic(auto, unfolding(crate::specs::Header::front_from, crate::specs::Header::header_bytes), using(crate::proofs::HeaderLemmas::counts))]
fn front_from(
    alloc: Global,
    source: &Dataset,
    version: u8,
    dims: &[Dim],
    variables: &[Variable],
    begin: u128,
) -> Result<Bytes, NoMemory>
    requires each { All (IsVariableOf source.now) variables.now }
    requires few { length variables.now < 2 ^ 28 }
    requires begin { begin < 2 ^ 64 }
    ensures { IfOk result (λ front. front
        ≡ spec.front_from source.now version dims.now variables.now begin) }
{
    let mut front = Bytes::new(alloc);
    put_before_vars(source, version, dims, variables.len(), &mut front)?;
    put_vars(alloc, source, version, dims, variables, begin, &mut front)?;
    Ok(front)
}

// The header of variables whose data follows it. It is as long wherever the data begins.
#[tactic(auto, unfolding(crate::specs::Header::front_of))]
pub(crate) fn front_of(
    alloc: Global,
    source: &Dataset,
    version: u8,
    dims: &[Dim],
    variables: &[Variable],
) -> Result<Bytes, NoMemory>
    requires each { All (IsVariableOf source.now) variables.now }
    requires few { length variables.now < 2 ^ 28 }
    ensures { IfOk result (λ front. front ≡ spec.front_of source.now version dims.now variables.now) }
{
    let begun = front_from(alloc, source, version, dims, variables, 0)?;
    let len = begun.len() as u128;
    front_from(alloc, source, version, dims, variables, len)
}
