//! What the header lines of a head say.
ghost use Rattle.std.specs.Prelude.{◌≡◌, length, map, All};
ghost use Rattle.std.specs.List.{list_any};
ghost use Rattle.httparse.specs.Spans.{IsHeaderWithin, header_bytes};
ghost use Rattle.web_frame.specs.Said as spec;

use crate::request::Method;
use crate::word::{has_word, same_word};
use httparse::spans::HeaderSpan;

// The method of a request line.
#[tactic(auto, unfolding(crate::specs::Said::method_of))]
pub(crate) fn method_of(bytes: &[u8]) -> Method
    ensures { result ≡ spec.method_of bytes.now }
{
    if bytes == b"GET".as_slice() {
        Method::Get
    } else if bytes == b"HEAD".as_slice() {
        Method::Head
    } else {
        Method::Other
    }
}

// Whether a `Connection` line has this word.
#[tactic(auto, unfolding(crate::specs::Said::connection_says))]
pub(crate) fn connection_says(raw: &[u8], lines: &[HeaderSpan], word: &[u8]) -> bool
    requires { All (IsHeaderWithin (length raw.now)) lines.now }
    ensures { result ≡ spec.connection_says word.now (map (header_bytes raw.now) lines.now) }
{
    for line in lines {
        if same_word(line.name.of(raw), b"Connection") && has_word(line.value.of(raw), word) {
            return true;
        }
    }
    false
}

#[tactic(auto, unfolding(crate::specs::Said::says_close))]
pub(crate) fn says_close(raw: &[u8], minor: u8, lines: &[HeaderSpan]) -> bool
    requires { All (IsHeaderWithin (length raw.now)) lines.now }
    ensures { result ≡ spec.says_close minor (map (header_bytes raw.now) lines.now) }
{
    connection_says(raw, lines, b"close")
        || (minor == 0 && !connection_says(raw, lines, b"keep-alive"))
}

#[tactic(auto, unfolding(crate::specs::Said::announces_body))]
fn announces_body(name: &[u8], value: &[u8]) -> bool
    ensures { result ≡ spec.announces_body (name.now, value.now) }
{
    same_word(name, b"Transfer-Encoding")
        || (same_word(name, b"Content-Length") && value != b"0".as_slice())
}

// Whether a line says that a body follows.
pub(crate) fn has_body(raw: &[u8], lines: &[HeaderSpan]) -> bool
    requires { All (IsHeaderWithin (length raw.now)) lines.now }
    ensures { result ≡ list_any spec.announces_body (map (header_bytes raw.now) lines.now) }
{
    for line in lines {
        if announces_body(line.name.of(raw), line.value.of(raw)) {
            return true;
        }
    }
    false
}
