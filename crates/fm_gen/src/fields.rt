//! The fields of a header (NetCDF Classic Format Specification, "The Format in Detail").
ghost use Rattle.std.specs.Prelude.{◌≡◌, ◌++◌, ◌<◌, ◌^◌, OnOk, length};
ghost use Rattle.fm_gen.specs.Fields as spec;

use fm_base::{Bytes, NoMemory};

/// A number of four bytes, the most significant first.
#[tactic(auto, unfolding(crate::specs::Fields::word))]
pub(crate) fn put_word(n: u32, out: &mut Bytes) -> Result<(), NoMemory>
    ensures { OnOk result (out.new ≡ out.old ++ spec.word n) }
{
    out.append(&n.to_be_bytes())
}

// Zero bytes up to a multiple of four.
fn padding(len: usize) -> &'static [u8]
    ensures { result.now ≡ spec.padding len }
{
    match len % 4 {
        1 => b"\0\0\0",
        2 => b"\0\0",
        3 => b"\0",
        _ => b"",
    }
}

// The number of some bytes, and the bytes with padding.
#[tactic(auto, unfolding(crate::specs::Fields::counted))]
fn put_counted(bytes: &[u8], out: &mut Bytes) -> Result<(), NoMemory>
    requires { length bytes.now < 2 ^ 32 }
    ensures { OnOk result (out.new ≡ out.old ++ spec.counted bytes.now) }
{
    put_word(bytes.len() as u32, out)?;
    out.append(bytes)?;
    out.append(padding(bytes.len()))
}

/// A dimension: its name and its length.
#[tactic(auto, unfolding(crate::specs::Fields::dim_text))]
pub(crate) fn put_dim(name: &[u8], size: u32, out: &mut Bytes) -> Result<(), NoMemory>
    requires { length name.now < 2 ^ 32 }
    ensures { OnOk result (out.new ≡ out.old ++ spec.dim_text name.now size) }
{
    put_counted(name, out)?;
    put_word(size, out)
}

/// The tag of a list and the number of its items.
pub(crate) fn put_tagged(tag: u32, count: u32, out: &mut Bytes) -> Result<(), NoMemory>
    ensures { OnOk result (out.new ≡ out.old ++ spec.tagged tag count) }
{
    put_word(tag, out)?;
    put_word(count, out)
}

/// An attribute of characters: its name, its kind and its text.
#[tactic(auto, unfolding(crate::specs::Fields::attr_text))]
pub(crate) fn put_attr(name: &[u8], text: &[u8], out: &mut Bytes) -> Result<(), NoMemory>
    requires name { length name.now < 2 ^ 32 }
    requires text { length text.now < 2 ^ 32 }
    ensures { OnOk result (out.new ≡ out.old ++ spec.attr_text name.now text.now) }
{
    put_counted(name, out)?;
    put_word(2, out)?;
    put_counted(text, out)
}

// The numbers of some dimensions.
#[tactic(auto, unfolding(crate::specs::Fields::shape_text))]
fn put_shape(ids: &[u32], out: &mut Bytes) -> Result<(), NoMemory>
    ensures { OnOk result (out.new ≡ out.old ++ spec.shape_text ids.now) }
{
    for id in ids {
        put_word(*id, out)?;
    }
    Ok(())
}

/// What stands before a variable's attributes: its name, its rank and the numbers of its dimensions.
#[tactic(auto, unfolding(crate::specs::Fields::var_front))]
pub(crate) fn put_var_front(name: &[u8], ids: &[u32], out: &mut Bytes) -> Result<(), NoMemory>
    requires name { length name.now < 2 ^ 32 }
    requires rank { length ids.now < 2 ^ 32 }
    ensures { OnOk result (out.new ≡ out.old ++ spec.var_front name.now ids.now) }
{
    put_counted(name, out)?;
    put_word(ids.len() as u32, out)?;
    put_shape(ids, out)
}

/// The fields after a variable's attributes: the number of its kind, its bytes, and the offset of its data.
#[tactic(auto, unfolding(crate::specs::Fields::var_end))]
pub(crate) fn put_var_end(kind: u32, size: u32, begin: u32, out: &mut Bytes) -> Result<(), NoMemory>
    ensures { OnOk result (out.new ≡ out.old ++ spec.var_end kind size begin) }
{
    put_word(kind, out)?;
    put_word(size, out)?;
    put_word(begin, out)
}
