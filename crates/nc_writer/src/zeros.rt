//! Zero bytes behind others.
ghost use Rattle.std.specs.Prelude.{◌≡◌, ◌≤◌, ◌++◌, drop, length, replicate};
ghost use Rattle.dap_number.specs.Overlay.{IsPut};

// Clears the first bytes of a buffer.
#[tactic(auto, using(crate::proofs::ZeroLemmas::clearing))]
fn clear(count: usize, out: &mut [u8])
    requires { count ≤ length out.old }
    ensures { out.new ≡ replicate count 0 ++ drop count out.old }
{
    for at in 0..count {
        out[at] = 0;
    }
}

// Writes the last of `len` zero bytes, from an offset among them on, over the front of a buffer, as many as fit, and
// returns how many that are.
pub(crate) fn put_fill(len: u64, from: u64, out: &mut [u8]) -> usize
    ensures { IsPut (drop from (replicate len 0)) out.old out.new result }
{
    let left = len.saturating_sub(from);
    let room = out.len() as u64;
    let count = left.min(room);
    clear(count as usize, out);
    count as usize
}
