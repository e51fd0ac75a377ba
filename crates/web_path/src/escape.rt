//! Percent escapes (RFC 3986, section 2.1).
ghost use Rattle.std.specs.Prelude.{◌≡◌, ◌≤◌, IfSome, length};
ghost use Rattle.web_path.specs.Escape as spec;

// Whether the bytes begin with two hexadecimal digits.
fn begins_with_two_digits(bytes: &[u8]) -> bool
    ensures { result ≡ spec.begins_with_two_digits bytes.now }
{
    match bytes {
        [high, low, ..] => char::from(*high).is_digit(16) && char::from(*low).is_digit(16),
        _ => false,
    }
}

// The offset of the first `%` without two hexadecimal digits after it.
pub(crate) fn bad_escape(bytes: &[u8]) -> Option<usize>
    ensures { result ≡ spec.bad_escape bytes.now }
{
    let mut left = bytes;
    let mut at = 0;
    while let [byte, rest @ ..] = left {
        if *byte == b'%' && !begins_with_two_digits(rest) {
            return Some(at);
        }
        left = rest;
        at += 1;
    }
    None
}
