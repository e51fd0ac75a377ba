//! The zero bytes at the end of a text, eight at a time.
ghost use Rattle.std.specs.Prelude.{◌≡◌, ◌++◌, IfSome, replicate};
ghost use Rattle.fm_model.specs.Attribute.{trimmed};

use fm_base::be64;

// What stands before the last eight bytes, where these are zeros.
fn before_eight(bytes: &[u8]) -> Option<&[u8]>
    ensures { IfSome result (λ front. bytes.now ≡ front.now ++ replicate 8 0) }
{
    if bytes.len() < 8 {
        return None;
    }
    let at = bytes.len() - 8;
    match be64(bytes, at) {
        Some(0) => Some(bytes.split_at(at).0),
        _ => None,
    }
}

// Some bytes of a text with fewer than eight zero bytes at their end. One compare takes off eight.
pub(crate) fn without_eights(bytes: &[u8]) -> &[u8]
    ensures { trimmed result.now ≡ trimmed bytes.now }
{
    let mut left = bytes;
    while let Some(front) = before_eight(left) {
        left = front;
    }
    left
}
