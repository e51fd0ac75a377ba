//! Where a byte stands in a text, and what stands between a front and an end.
ghost use Rattle.std.specs.Prelude.{◌≡◌, ◌==◌, ◌<◌, ◌≤◌, length, IfSome};
ghost use Rattle.std.specs.List.{position_or_len};
ghost use Rattle.std.specs.Path.{rfind_below};

// The offset of the first byte that is `byte`, or the length of the text.
pub(crate) fn first_of(byte: u8, text: &[u8]) -> usize
    ensures offset { result ≡ position_or_len (λ b. b == byte) text.now }
    ensures within { result ≤ length text.now }
{
    let mut left = text;
    let mut at = 0;
    while let [next, rest @ ..] = left {
        if *next == byte {
            return at;
        }
        left = rest;
        at += 1;
    }
    at
}

// The offset of the last byte that is `byte`.
pub(crate) fn last_of(byte: u8, text: &[u8]) -> Option<usize>
    ensures offset { result ≡ rfind_below byte text.now (length text.now) }
    ensures within { IfSome result (λ at. at < length text.now) }
{
    let mut at = text.len();
    while at > 0 {
        at -= 1;
        if text[at] == byte {
            return Some(at);
        }
    }
    None
}
