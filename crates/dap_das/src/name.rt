//! Names of attributes, with the bytes that a name may not have escaped.
ghost use Rattle.std.specs.Prelude.{◌≡◌, ◌<◌, ◌++◌, true, OnOk};
ghost use Rattle.std.specs.Fmt.{digit_glyph};
ghost use Rattle.dap_das.specs.AttributeText as spec;

use fm_base::{Bytes, NoMemory, is_name_byte};

// The digit of a number below 16, in upper case.
fn upper_digit(digit: u8) -> u8
    requires { digit < 16 }
    ensures { result ≡ digit_glyph true digit }
{
    if digit < 10 {
        b'0' + digit
    } else {
        b'A' - 10 + digit
    }
}

// Writes one byte of a name.
#[tactic(auto, unfolding(crate::specs::AttributeText::escaped_byte))]
fn put_escaped(byte: u8, out: &mut Bytes) -> Result<(), NoMemory>
    ensures { OnOk result (out.new ≡ out.old ++ spec.escaped_byte byte) }
{
    if is_name_byte(byte) {
        out.push(byte)
    } else {
        out.push(b'%')?;
        out.push(upper_digit(byte / 16))?;
        out.push(upper_digit(byte % 16))
    }
}

// Writes a name.
#[tactic(auto, unfolding(crate::specs::AttributeText::escaped_name))]
pub(crate) fn put_name(name: &[u8], out: &mut Bytes) -> Result<(), NoMemory>
    ensures { OnOk result (out.new ≡ out.old ++ spec.escaped_name name.now) }
{
    for byte in name {
        put_escaped(*byte, out)?;
    }
    Ok(())
}
