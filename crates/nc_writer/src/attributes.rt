//! The attributes of the variables of a file.
ghost use Rattle.std.specs.Prelude.{◌≡◌, ◌++◌, ◌∷◌, [], IfOk, MatchOption, None, OnOk, Some, filter, find};
ghost use Rattle.std.specs.Str.{bytes_eq};
ghost use Rattle.nc_model.specs.Instant.{HasFourDigitYear};
ghost use Rattle.fm_model.specs.Site.{IsPrototype};
ghost use Rattle.dap_das.specs.Attributes as shown;
ghost use Rattle.nc_writer.specs.Attributes as spec;

use dap_das::{axis_attributes, offset_attributes, run_attributes, value_count};
use fm_base::{Bytes, List, NoMemory};
use fm_dataset::Dataset;
use fm_model::{Proto, ProtoVar, ViewName};
use nc_model::{Attr, Kind};
use std::alloc::Global;

fn copy_attr(alloc: Global, attr: &Attr) -> Result<Attr, NoMemory>
    ensures { IfOk result (λ copy. copy ≡ attr.now) }
{
    Ok(Attr {
        name: Bytes::copy_of(alloc, attr.name.as_slice())?,
        kind: attr.kind,
        values: Bytes::copy_of(alloc, attr.values.as_slice())?,
    })
}

// Whether an attribute is written: one of numbers without values is left out.
#[tactic(auto, unfolding(crate::specs::Attributes::is_written))]
fn is_written(attr: &Attr) -> bool
    ensures { result ≡ spec.is_written attr.now }
{
    matches!(attr.kind, Kind::Char) || value_count(attr.kind, attr.values.as_slice()) != 0
}

// Adds a copy of an attribute, where it is written.
fn put_written(alloc: Global, attr: &Attr, copies: &mut List<Attr>) -> Result<(), NoMemory>
    ensures { OnOk result (copies.new ≡ copies.old ++ filter spec.is_written (attr.now ∷ [])) }
{
    if is_written(attr) {
        copies.push(copy_attr(alloc, attr)?)?;
    }
    Ok(())
}

// Copies of the attributes that are written.
fn written(alloc: Global, attrs: &[Attr]) -> Result<List<Attr>, NoMemory>
    ensures { IfOk result (λ copies. copies ≡ filter spec.is_written attrs.now) }
{
    let mut copies = List::new(alloc);
    for attr in attrs {
        put_written(alloc, attr, &mut copies)?;
    }
    Ok(copies)
}

// The variable of a name.
fn var_named<'a>(vars: &'a [ProtoVar], name: &[u8]) -> Option<&'a ProtoVar>
    ensures { MatchOption result (find (spec.is_of_name name.now) vars.now ≡ None)
        (λ var. find (spec.is_of_name name.now) vars.now ≡ Some var.now) }
{
    for var in vars {
        if var.name.as_slice() == name {
            return Some(var);
        }
    }
    None
}

// The attributes of a variable that are written.
#[tactic(auto, unfolding(dap_das::specs::Attributes::variable_attributes))]
fn variable_attributes(
    alloc: Global,
    proto: &Proto,
    view: &ViewName,
    var: &ProtoVar,
) -> Result<List<Attr>, NoMemory>
    requires { HasFourDigitYear proto.now.site.epoch }
    ensures { IfOk result (λ attrs. attrs
        ≡ filter spec.is_written (shown.variable_attributes proto.now view.now var.now)) }
{
    if var.name.as_slice() == proto.axis.as_slice() {
        let attrs = axis_attributes(alloc, proto, view)?;
        return written(alloc, attrs.as_slice());
    }
    written(alloc, var.attrs.as_slice())
}

// Whether a name is the axis's with some bytes behind it.
fn is_name_with(axis: &[u8], behind: &[u8], name: &[u8]) -> bool
    ensures { result ≡ bytes_eq (axis.now ++ behind.now) name.now }
{
    match name.strip_prefix(axis) {
        Some(rest) => behind == rest,
        None => false,
    }
}

// The attributes of the run or of the offset of each row, under their names.
#[tactic(auto, unfolding(crate::specs::Attributes::added_attributes, fm_model::specs::Prototype::run_name, fm_model::specs::Prototype::offset_name))]
fn added_attributes(alloc: Global, proto: &Proto, name: &[u8]) -> Result<List<Attr>, NoMemory>
    requires { HasFourDigitYear proto.now.site.epoch }
    ensures { IfOk result (λ attrs. attrs ≡ spec.added_attributes proto.now name.now) }
{
    let axis = proto.axis.as_slice();
    if is_name_with(axis, b"_run", name) {
        return run_attributes(alloc, proto);
    }
    if is_name_with(axis, b"_offset", name) {
        return offset_attributes(alloc);
    }
    Ok(List::new(alloc))
}

// The attributes of the variable of a name, of a prototype and a view.
#[tactic(auto, using(crate::proofs::YearLemmas::years), unfolding(crate::specs::Attributes::attributes_in, crate::specs::Attributes::shown_attributes))]
fn attributes_in(
    alloc: Global,
    proto: &Proto,
    view: &ViewName,
    name: &[u8],
) -> Result<List<Attr>, NoMemory>
    requires { IsPrototype proto.now }
    ensures { IfOk result (λ attrs. attrs ≡ spec.attributes_in proto.now view.now name.now) }
{
    match var_named(proto.vars.as_slice(), name) {
        Some(var) => variable_attributes(alloc, proto, view, var),
        None => {
            let attrs = added_attributes(alloc, proto, name)?;
            written(alloc, attrs.as_slice())
        }
    }
}

// The attributes of the variable of a name.
#[tactic(auto, unfolding(crate::specs::Attributes::attributes_of))]
pub(crate) fn attributes_of(
    alloc: Global,
    source: &Dataset,
    name: &[u8],
) -> Result<List<Attr>, NoMemory>
    ensures { IfOk result (λ attrs. attrs ≡ spec.attributes_of source.now name.now) }
{
    attributes_in(alloc, source.proto().get(), source.view(), name)
}
