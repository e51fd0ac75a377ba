//! Numbers of two bytes, each written in four.
ghost use Rattle.std.specs.Prelude.{◌≡◌, ◌+◌, ◌*◌, ◌/◌, ◌≤◌, ◌++◌, drop, length, min, take};
ghost use Rattle.dap_number.specs.Front.{widened_bytes};

use dap_number::widened;

// Writes four bytes at an offset.
fn put_four(four: [u8; 4], at: usize, out: &mut [u8])
    requires { at + 4 ≤ length out.old }
    ensures { out.new ≡ take at out.old ++ (four ++ drop (at + 4) out.old) }
{
    let (_, rest) = out.split_at_mut(at);
    let (target, _) = rest.split_at_mut(4);
    target.copy_from_slice(&four);
}

// Writes whole numbers, as many as fit, and returns how many bytes that are.
pub(crate) fn widen(stored: &[u8], out: &mut [u8]) -> usize
    ensures count { result ≡ 4 * min (length stored.now / 2) (length out.old / 4) }
    ensures bytes { out.new ≡ widened_bytes (take (result / 2) stored.now) ++ drop result out.old }
{
    let count = (stored.len() / 2).min(out.len() / 4);
    for number in 0..count {
        let bits = u16::from_be_bytes([stored[2 * number], stored[2 * number + 1]]);
        put_four(widened(bits), 4 * number, out);
    }
    4 * count
}
