//! Bytes written over the front of a buffer.
ghost use Rattle.std.specs.Prelude.{◌≡◌, ◌-◌, drop, length, min};
ghost use Rattle.dap_number.specs.Overlay.{overlay};

/// Writes bytes from an offset on over the front of a buffer, as many as fit, and returns how many that are.
#[tactic(auto, unfolding(crate::specs::Overlay::overlay))]
pub fn put(bytes: &[u8], from: u64, out: &mut [u8]) -> usize
    ensures count { result ≡ min (length out.old) (length bytes.now - from) }
    ensures bytes { out.new ≡ overlay (drop from bytes.now) out.old }
{
    let from = from.min(bytes.len() as u64) as usize;
    let (_, rest) = bytes.split_at(from);
    let count = rest.len().min(out.len());
    let (source, _) = rest.split_at(count);
    let (target, _) = out.split_at_mut(count);
    target.copy_from_slice(source);
    count
}
