//! Texts as XDR.
ghost use Rattle.std.specs.Prelude.{◌≡◌, ◌<◌, ◌^◌, ◌++◌, drop, length};
ghost use Rattle.dap_model.specs.Xdr.{text_bytes, text_len, zeros_after};
ghost use Rattle.dap_number.specs.Overlay.{IsPut};

use dap_number::{count_bytes, put, put_zeros};

// Writes a text's bytes and the zero bytes after them from an offset on.
fn put_padded(text: &[u8], from: u64, out: &mut [u8]) -> usize
    ensures { IsPut (drop from (text.now ++ zeros_after (length text.now))) out.old out.new result }
{
    let len = text.len() as u64;
    let count = put(text, from, out);
    let (_, rest) = out.split_at_mut(count);
    count + put_zeros(len, from.saturating_sub(len), rest)
}

/// Writes a text as XDR from an offset on: its length, its bytes, and zero bytes up to a multiple of four.
pub fn put_text(text: &[u8], from: u64, out: &mut [u8]) -> usize
    ensures { IsPut (drop from (text_bytes text.now)) out.old out.new result }
{
    let count = put(&count_bytes(text.len() as u64), from, out);
    let (_, rest) = out.split_at_mut(count);
    count + put_padded(text, from.saturating_sub(4), rest)
}

/// How many bytes a text of this length takes.
pub fn text_len(len: u64) -> u64
    requires { len < 2 ^ 32 }
    ensures { result ≡ text_len len }
{
    4 + (len + 3) / 4 * 4
}
