//! Text as bytes.
ghost use Rattle.std.specs.Prelude.{◌<◌, IfSome};

use crate::grown::Grown;
use std::alloc::{AllocError, Global};

/// The bytes that a value stands for: its own, a carriage return as `\r`, a line feed as `\n`, and any byte as `\xNN`,
/// a backslash too; `None` where a backslash begins nothing of these.
pub fn bytes(alloc: Global, value: &str) -> Result<Option<Vec<u8>>, AllocError> {
    let mut grown = Grown::new(alloc);
    let known = put_bytes(value, &mut grown);
    grown.end(known)
}

// Appends the bytes that a value stands for. It is false where a backslash begins nothing of these.
fn put_bytes(value: &str, out: &mut Grown) -> bool {
    let mut parts = value.split('\\');
    out.put(parts.next().unwrap_or("").as_bytes());
    for part in parts {
        let Some((byte, rest)) = escaped(part.as_bytes()) else {
            return false;
        };
        out.push(byte);
        out.put(rest);
    }
    true
}

// The byte that stands behind a backslash, and what comes after it.
fn escaped(part: &[u8]) -> Option<(u8, &[u8])> {
    match part {
        [b'r', rest @ ..] => Some((b'\r', rest)),
        [b'n', rest @ ..] => Some((b'\n', rest)),
        [b'x', high, low, rest @ ..] => Some((byte_of(*high, *low)?, rest)),
        _ => None,
    }
}

/// The bytes of hexadecimal digits, two for each byte; blanks and line ends may stand between bytes.
pub fn hex(alloc: Global, digits: &str) -> Result<Option<Vec<u8>>, AllocError> {
    let mut grown = Grown::new(alloc);
    let known = put_bytes_of(digits, &mut grown);
    grown.end(known)
}

/// Appends the bytes of hexadecimal digits. It is false where the text is something else.
pub(crate) fn put_bytes_of(digits: &str, out: &mut Grown) -> bool {
    for word in digits.split_whitespace() {
        if !put_word(word, out) {
            return false;
        }
    }
    true
}

// Appends the bytes of hexadecimal digits without blanks.
fn put_word(digits: &str, out: &mut Grown) -> bool {
    let mut digits = digits.bytes();
    while let Some(high) = digits.next() {
        let Some(byte) = byte_of(high, digits.next().unwrap_or(b' ')) else {
            return false;
        };
        out.push(byte);
    }
    true
}

// The byte of two hexadecimal digits.
fn byte_of(high: u8, low: u8) -> Option<u8> {
    let (Some(high), Some(low)) = (hex_digit(high), hex_digit(low)) else {
        return None;
    };
    Some(high * 16 + low)
}

fn hex_digit(digit: u8) -> Option<u8>
    ensures { IfSome result (λ value. value < 16) }
{
    match digit {
        b'0'..=b'9' => Some(digit - b'0'),
        b'a'..=b'f' => Some(digit - b'a' + 10),
        _ => None,
    }
}
