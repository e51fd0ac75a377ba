//! The fields of a header (NetCDF Classic Format Specification, "The Format in Detail").
ghost use Rattle.std.specs.Prelude.{◌≡◌, ◌++◌, OnOk};
ghost use Rattle.std.specs.Int.{w32, w64, to_be_bytes};
ghost use Rattle.std.specs.List.{flat_map};
ghost use Rattle.nc_model.specs.Format.{ATTRIBUTE_TAG, DIMENSION_TAG};
ghost use Rattle.nc_model.specs.Kind as kinds;
ghost use Rattle.fm_gen.specs.Fields as spec;
ghost use Rattle.nc_writer.specs.Header.{attr_bytes, begin_bytes, dim_bytes, ids_of, list_bytes, list_front, values_bytes};

use crate::dims::dim_number;
use dap_das::value_count;
use fm_base::{Bytes, NoMemory};
use nc_model::{Attr, Dim, Kind};

// The tags of the lists.
const DIMENSIONS: u32 = 10;

pub(crate) const VARIABLES: u32 = 11;

const ATTRIBUTES: u32 = 12;

// The last four bytes of a number, the most significant first.
fn four_of(n: u128) -> [u8; 4]
    ensures { result ≡ to_be_bytes w32 n }
{
    let [_, _, _, _, _, _, _, _, _, _, _, _, a, b, c, d] = n.to_be_bytes();
    [a, b, c, d]
}

// The last eight bytes of a number.
fn eight_of(n: u128) -> [u8; 8]
    ensures { result ≡ to_be_bytes w64 n }
{
    let [_, _, _, _, _, _, _, _, a, b, c, d, e, f, g, h] = n.to_be_bytes();
    [a, b, c, d, e, f, g, h]
}

// A number of four bytes.
#[tactic(auto, unfolding(fm_gen::specs::Fields::word))]
pub(crate) fn put_word(n: u128, out: &mut Bytes) -> Result<(), NoMemory>
    ensures { OnOk result (out.new ≡ out.old ++ spec.word n) }
{
    out.append(&four_of(n))
}

// Zero bytes up to a multiple of four.
fn padding(len: usize) -> &'static [u8]
    ensures { result.now ≡ spec.padding len }
{
    match len % 4 {
        1 => b"\0\0\0",
        2 => b"\0\0",
        3 => b"\0",
        _ => b"",
    }
}

// The number of some bytes, and the bytes with padding.
#[tactic(auto, unfolding(fm_gen::specs::Fields::counted))]
pub(crate) fn put_counted(bytes: &[u8], out: &mut Bytes) -> Result<(), NoMemory>
    ensures { OnOk result (out.new ≡ out.old ++ spec.counted bytes.now) }
{
    put_word(bytes.len() as u128, out)?;
    out.append(bytes)?;
    out.append(padding(bytes.len()))
}

// The tag of a list and the number of its items; two zero words where there is none.
#[tactic(auto, unfolding(crate::specs::Header::list_front))]
pub(crate) fn put_list(tag: u32, count: usize, out: &mut Bytes) -> Result<(), NoMemory>
    ensures { OnOk result (out.new ≡ out.old ++ list_front tag count) }
{
    if count == 0 {
        put_word(0, out)?;
        return put_word(0, out);
    }
    put_word(u128::from(tag), out)?;
    put_word(count as u128, out)
}

// A dimension: its name and its length.
#[tactic(auto, unfolding(fm_gen::specs::Fields::dim_text))]
fn put_dim(dim: &Dim, out: &mut Bytes) -> Result<(), NoMemory>
    ensures { OnOk result (out.new ≡ out.old ++ dim_bytes dim.now) }
{
    put_counted(dim.name.as_slice(), out)?;
    put_word(u128::from(dim.size), out)
}

// Dimensions one after the other.
fn put_each_dim(dims: &[Dim], out: &mut Bytes) -> Result<(), NoMemory>
    ensures { OnOk result (out.new ≡ out.old ++ flat_map dim_bytes dims.now) }
{
    for dim in dims {
        put_dim(dim, out)?;
    }
    Ok(())
}

// The list of the dimensions.
pub(crate) fn put_dims(dims: &[Dim], out: &mut Bytes) -> Result<(), NoMemory>
    ensures { OnOk result (out.new ≡ out.old ++ list_bytes DIMENSION_TAG dim_bytes dims.now) }
{
    put_list(DIMENSIONS, dims.len(), out)?;
    put_each_dim(dims, out)
}

// The number of a kind.
pub(crate) fn code_of(kind: Kind) -> u128
    ensures { result ≡ kinds.code_of kind }
{
    match kind {
        Kind::Byte => 1,
        Kind::Char => 2,
        Kind::Short => 3,
        Kind::Int => 4,
        Kind::Float => 5,
        Kind::Double => 6,
    }
}

// The values of an attribute: how many there are, and their bytes with padding.
#[tactic(auto, unfolding(crate::specs::Header::values_bytes))]
fn put_values(attr: &Attr, out: &mut Bytes) -> Result<(), NoMemory>
    ensures { OnOk result (out.new ≡ out.old ++ values_bytes attr.now) }
{
    put_word(value_count(attr.kind, attr.values.as_slice()) as u128, out)?;
    out.append(attr.values.as_slice())?;
    out.append(padding(attr.values.len()))
}

// An attribute.
#[tactic(auto, unfolding(crate::specs::Header::attr_bytes))]
fn put_attr(attr: &Attr, out: &mut Bytes) -> Result<(), NoMemory>
    ensures { OnOk result (out.new ≡ out.old ++ attr_bytes attr.now) }
{
    put_counted(attr.name.as_slice(), out)?;
    put_word(code_of(attr.kind), out)?;
    put_values(attr, out)
}

// Attributes one after the other.
fn put_each_attr(attrs: &[Attr], out: &mut Bytes) -> Result<(), NoMemory>
    ensures { OnOk result (out.new ≡ out.old ++ flat_map attr_bytes attrs.now) }
{
    for attr in attrs {
        put_attr(attr, out)?;
    }
    Ok(())
}

// A list of attributes.
pub(crate) fn put_attrs(attrs: &[Attr], out: &mut Bytes) -> Result<(), NoMemory>
    ensures { OnOk result (out.new ≡ out.old ++ list_bytes ATTRIBUTE_TAG attr_bytes attrs.now) }
{
    put_list(ATTRIBUTES, attrs.len(), out)?;
    put_each_attr(attrs, out)
}

// The numbers of dimensions, by their names.
#[tactic(auto, unfolding(fm_gen::specs::Fields::shape_text, crate::specs::Header::ids_of))]
fn put_ids(dims: &[Dim], own: &[Dim], out: &mut Bytes) -> Result<(), NoMemory>
    ensures { OnOk result (out.new ≡ out.old ++ spec.shape_text (ids_of dims.now own.now)) }
{
    for dim in own {
        put_word(dim_number(dims, dim.name.as_slice()) as u128, out)?;
    }
    Ok(())
}

// What stands before a variable's attributes: its name, its rank and the numbers of its dimensions.
pub(crate) fn put_var_front(
    name: &[u8],
    dims: &[Dim],
    own: &[Dim],
    out: &mut Bytes,
) -> Result<(), NoMemory>
    ensures { OnOk result (out.new ≡ out.old ++ spec.var_front name.now (ids_of dims.now own.now)) }
{
    put_counted(name, out)?;
    put_word(own.len() as u128, out)?;
    put_ids(dims, own, out)
}

// The offset of a variable's data.
#[tactic(auto, unfolding(crate::specs::Header::begin_bytes))]
pub(crate) fn put_begin(version: u8, begin: u128, out: &mut Bytes) -> Result<(), NoMemory>
    ensures { OnOk result (out.new ≡ out.old ++ begin_bytes version begin) }
{
    if version == 1 {
        return out.append(&four_of(begin));
    }
    out.append(&eight_of(begin))
}
