//! The attribute text.
ghost use Rattle.std.specs.Prelude.{◌≡◌, ◌++◌, map, OnOk, OnErr};
ghost use Rattle.nc_model.specs.Instant.{HasFourDigitYear};
ghost use Rattle.dap_das.specs.Attributes as attributes;
ghost use Rattle.dap_das.specs.AttributeText as spec;

use crate::attribute::put_attributes;
use crate::attributes::{axis_attributes, offset_attributes, run_attributes};
use crate::line::put_open;
use dap_dds::put_line;
use fm_base::{Bytes, NoMemory};
use fm_model::{Proto, ProtoVar, ViewName};
use nc_model::Attr;
use std::alloc::Global;

// Writes a name and its attributes.
#[tactic(auto, unfolding(crate::specs::AttributeText::container_text))]
fn put_container(
    alloc: Global,
    name: &[u8],
    attrs: &[Attr],
    out: &mut Bytes,
) -> Result<(), NoMemory>
    ensures { OnOk result (out.new
        ≡ out.old ++ spec.container_text (record { name = name.now; attrs = attrs.now })) }
{
    put_open(name, out)?;
    put_attributes(alloc, attrs, out)?;
    put_line(1, b"}", out)
}

// Writes a variable and its attributes.
#[tactic(auto, unfolding(crate::specs::Attributes::variable_attributes))]
fn put_variable(
    alloc: Global,
    proto: &Proto,
    view: &ViewName,
    var: &ProtoVar,
    out: &mut Bytes,
) -> Result<(), NoMemory>
    requires { HasFourDigitYear proto.now.site.epoch }
    ensures { OnOk result (out.new ≡ out.old
        ++ spec.container_text (attributes.variable_container proto.now view.now var.now)) }
{
    let name = var.name.as_slice();
    if name == proto.axis.as_slice() {
        let attrs = axis_attributes(alloc, proto, view)?;
        put_container(alloc, name, attrs.as_slice(), out)
    } else {
        put_container(alloc, name, var.attrs.as_slice(), out)
    }
}

// Writes variables and their attributes.
#[tactic(auto, unfolding(crate::specs::AttributeText::containers_text))]
fn put_variables(
    alloc: Global,
    proto: &Proto,
    view: &ViewName,
    vars: &[ProtoVar],
    out: &mut Bytes,
) -> Result<(), NoMemory>
    requires { HasFourDigitYear proto.now.site.epoch }
    ensures { OnOk result (out.new ≡ out.old
        ++ spec.containers_text (map (attributes.variable_container proto.now view.now) vars.now)) }
{
    for var in vars {
        put_variable(alloc, proto, view, var, out)?;
    }
    Ok(())
}

// Writes the attributes of the run of each row.
#[tactic(auto, unfolding(fm_model::specs::Prototype::run_name))]
fn put_run(alloc: Global, proto: &Proto, out: &mut Bytes) -> Result<(), NoMemory>
    requires { HasFourDigitYear proto.now.site.epoch }
    ensures { OnOk result (out.new ≡ out.old ++ spec.container_text (attributes.run_container proto.now)) }
{
    let mut name = Bytes::copy_of(alloc, proto.axis.as_slice())?;
    name.append(b"_run")?;
    let attrs = run_attributes(alloc, proto)?;
    put_container(alloc, name.as_slice(), attrs.as_slice(), out)
}

// Writes the attributes of the offset of each row.
#[tactic(auto, unfolding(fm_model::specs::Prototype::offset_name))]
fn put_offset(alloc: Global, proto: &Proto, out: &mut Bytes) -> Result<(), NoMemory>
    ensures { OnOk result (out.new ≡ out.old ++ spec.container_text (attributes.offset_container proto.now)) }
{
    let mut name = Bytes::copy_of(alloc, proto.axis.as_slice())?;
    name.append(b"_offset")?;
    let attrs = offset_attributes(alloc)?;
    put_container(alloc, name.as_slice(), attrs.as_slice(), out)
}

// Writes the attributes of each declaration.
#[tactic(auto, unfolding(crate::specs::AttributeText::containers_text, crate::specs::Attributes::containers_of))]
fn put_declared(
    alloc: Global,
    proto: &Proto,
    view: &ViewName,
    out: &mut Bytes,
) -> Result<(), NoMemory>
    requires { HasFourDigitYear proto.now.site.epoch }
    ensures { OnOk result (out.new
        ≡ out.old ++ spec.containers_text (attributes.containers_of proto.now view.now)) }
{
    put_variables(alloc, proto, view, proto.vars.as_slice(), out)?;
    put_run(alloc, proto, out)?;
    put_offset(alloc, proto, out)
}

// Writes the attributes of the prototype itself.
#[tactic(auto, unfolding(crate::specs::AttributeText::global_container))]
fn put_globals(alloc: Global, proto: &Proto, out: &mut Bytes) -> Result<(), NoMemory>
    ensures { OnOk result (out.new ≡ out.old ++ spec.container_text (spec.global_container proto.now)) }
{
    put_container(alloc, b"NC_GLOBAL", proto.attrs.as_slice(), out)
}

// Writes the first line.
#[tactic(auto, unfolding(crate::specs::AttributeText::first_line))]
fn put_first_line(out: &mut Bytes) -> Result<(), NoMemory>
    ensures { OnOk result (out.new ≡ out.old ++ spec.first_line) }
{
    put_line(0, b"Attributes {", out)
}

// Writes the last line.
#[tactic(auto, unfolding(crate::specs::AttributeText::last_line))]
fn put_last_line(out: &mut Bytes) -> Result<(), NoMemory>
    ensures { OnOk result (out.new ≡ out.old ++ spec.last_line) }
{
    put_line(0, b"}", out)
}

/// Writes the attribute text (ESE-RFC-004, DAS) of a view of this prototype's collection at the end of `out`:
/// `Attributes {`, a container for each declaration, `NC_GLOBAL` with the prototype's global attributes, and `}`, with
/// LF after each line. The axis, the runs and the offsets have the view's attributes, and any other variable those of
/// the prototype. An attribute of characters is one quoted String without the zero bytes at its end, and one of numbers
/// without values is left out. The caller has an epoch in the years 0 to 9999. An `Err` changes nothing.
#[tactic(auto, unfolding(crate::specs::AttributeText::das_of))]
pub fn das_text_of(
    alloc: Global,
    proto: &Proto,
    view: &ViewName,
    out: &mut Bytes,
) -> Result<(), NoMemory>
    requires { HasFourDigitYear proto.now.site.epoch }
    ensures ok { OnOk result (out.new ≡ out.old ++ spec.das_of proto.now view.now) }
    ensures err { OnErr result (out.new ≡ out.old) }
{
    let mut whole = Bytes::new(alloc);
    put_first_line(&mut whole)?;
    put_declared(alloc, proto, view, &mut whole)?;
    put_globals(alloc, proto, &mut whole)?;
    put_last_line(&mut whole)?;
    out.append(whole.as_slice())
}
