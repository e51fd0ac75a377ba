//! The counts before values, and the zero bytes after them.
ghost use Rattle.std.specs.Prelude.{◌≡◌, drop};
ghost use Rattle.std.specs.Int.{w32, to_be_bytes};
ghost use Rattle.dap_model.specs.Xdr.{count_twice, zeros_after};
ghost use Rattle.dap_number.specs.Overlay.{IsPut};

use crate::writing::put;

/// A count in four bytes.
pub fn count_bytes(count: u64) -> [u8; 4]
    ensures { result ≡ to_be_bytes w32 count }
{
    let [_, _, _, _, a, b, c, d] = count.to_be_bytes();
    [a, b, c, d]
}

/// A count twice, each in four bytes.
#[tactic(auto, unfolding(dap_model::specs::Xdr::count_twice))]
pub fn count_twice(count: u64) -> [u8; 8]
    ensures { result ≡ count_twice count }
{
    let [a, b, c, d] = count_bytes(count);
    [a, b, c, d, a, b, c, d]
}

/// Writes the zero bytes after `len` bytes, from an offset among them on.
pub fn put_zeros(len: u64, from: u64, out: &mut [u8]) -> usize
    ensures { IsPut (drop from (zeros_after len)) out.old out.new result }
{
    let count = (4 - len % 4) % 4;
    let (zeros, _) = [0; 3].split_at(count as usize);
    put(zeros, from, out)
}
