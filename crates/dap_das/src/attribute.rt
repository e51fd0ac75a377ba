//! The line of an attribute.
ghost use Rattle.std.specs.Prelude.{◌≡◌, ◌++◌, OnOk};
ghost use Rattle.dap_das.specs.AttributeText as spec;

use crate::name::put_name;
use crate::number::{put_numbers, value_count};
use dap_dds::put_indent;
use fm_base::{Bytes, NoMemory};
use fm_bits::put_quoted;
use fm_file::trimmed;
use nc_model::{Attr, Kind};
use std::alloc::Global;

// Writes the word of a kind.
#[tactic(auto, unfolding(crate::specs::AttributeText::kind_word))]
fn put_kind(kind: Kind, out: &mut Bytes) -> Result<(), NoMemory>
    ensures { OnOk result (out.new ≡ out.old ++ spec.kind_word kind) }
{
    match kind {
        Kind::Byte => out.append(b"Byte"),
        Kind::Char => out.append(b"String"),
        Kind::Short => out.append(b"Int16"),
        Kind::Int => out.append(b"Int32"),
        Kind::Float => out.append(b"Float32"),
        Kind::Double => out.append(b"Float64"),
    }
}

// Writes the line of an attribute, with this text of its values.
#[tactic(auto, unfolding(crate::specs::AttributeText::attribute_line))]
fn put_attribute_line(attr: &Attr, shown: &[u8], out: &mut Bytes) -> Result<(), NoMemory>
    ensures { OnOk result (out.new ≡ out.old ++ spec.attribute_line attr.now shown.now) }
{
    put_indent(2, out)?;
    put_kind(attr.kind, out)?;
    out.push(b' ')?;
    put_name(attr.name.as_slice(), out)?;
    out.push(b' ')?;
    out.append(shown)?;
    out.append(b";\n")
}

// Writes an attribute of characters as one quoted text.
#[tactic(auto, unfolding(crate::specs::AttributeText::characters_line))]
fn put_characters(alloc: Global, attr: &Attr, out: &mut Bytes) -> Result<(), NoMemory>
    ensures { OnOk result (out.new ≡ out.old ++ spec.characters_line attr.now) }
{
    let mut shown = Bytes::new(alloc);
    put_quoted(alloc, trimmed(attr.values.as_slice()), &mut shown)?;
    put_attribute_line(attr, shown.as_slice(), out)
}

// Writes an attribute of numbers, and nothing where it has no values.
#[tactic(auto, unfolding(crate::specs::AttributeText::numbers_line))]
fn put_number_values(alloc: Global, attr: &Attr, out: &mut Bytes) -> Result<(), NoMemory>
    ensures { OnOk result (out.new ≡ out.old ++ spec.numbers_line attr.now) }
{
    if value_count(attr.kind, attr.values.as_slice()) == 0 {
        return Ok(());
    }
    let mut shown = Bytes::new(alloc);
    put_numbers(alloc, attr.kind, attr.values.as_slice(), &mut shown)?;
    put_attribute_line(attr, shown.as_slice(), out)
}

// Writes an attribute.
#[tactic(auto, unfolding(crate::specs::AttributeText::attribute_text))]
fn put_attribute(alloc: Global, attr: &Attr, out: &mut Bytes) -> Result<(), NoMemory>
    ensures { OnOk result (out.new ≡ out.old ++ spec.attribute_text attr.now) }
{
    match attr.kind {
        Kind::Char => put_characters(alloc, attr, out),
        _ => put_number_values(alloc, attr, out),
    }
}

// Writes attributes, each on its line.
#[tactic(auto, unfolding(crate::specs::AttributeText::attributes_text))]
pub(crate) fn put_attributes(alloc: Global, attrs: &[Attr], out: &mut Bytes) -> Result<(), NoMemory>
    ensures { OnOk result (out.new ≡ out.old ++ spec.attributes_text attrs.now) }
{
    for attr in attrs {
        put_attribute(alloc, attr, out)?;
    }
    Ok(())
}
