//! Texts between quotation marks.
ghost use Rattle.std.specs.Prelude.{◌≡◌, ◌++◌, OnOk, OnErr};
ghost use Rattle.fm_bits.specs.Quoted.{escaped, quoted};

use crate::digits::put_digits;
use fm_base::{Bytes, NoMemory};
use std::alloc::Global;

/// Writes bytes as a quoted String of DAP 2.0 (ESE-RFC-004) at the end of `out`: between `"`, with `\` before `"` and
/// `\`, and a byte outside the printable ASCII as `\` and three octal digits. An `Err` changes nothing.
#[tactic(auto, unfolding(crate::specs::Quoted::quoted))]
pub fn put_quoted(alloc: Global, text: &[u8], out: &mut Bytes) -> Result<(), NoMemory>
    ensures ok { OnOk result (out.new ≡ out.old ++ quoted text.now) }
    ensures err { OnErr result (out.new ≡ out.old) }
{
    let mut string = Bytes::new(alloc);
    string.push(b'"')?;
    for byte in text {
        put_escaped(*byte, &mut string)?;
    }
    string.push(b'"')?;
    out.append(string.as_slice())
}

// Writes one byte of a quoted String.
#[tactic(auto, unfolding(crate::specs::Quoted::escaped))]
fn put_escaped(byte: u8, out: &mut Bytes) -> Result<(), NoMemory>
    ensures { OnOk result (out.new ≡ out.old ++ escaped byte) }
{
    match byte {
        b'"' | b'\\' => {
            out.push(b'\\')?;
            out.push(byte)
        }
        b' '..=b'~' => out.push(byte),
        _ => {
            out.push(b'\\')?;
            put_digits(8, 3, u128::from(byte), out)
        }
    }
}
