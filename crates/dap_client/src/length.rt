//! How long the body behind a head is.
ghost use Rattle.std.specs.Prelude.{◌≡◌, ◌≤◌, None, All, IfNone, IfOk, IfSome, drop, length, map};
ghost use Rattle.std.specs.List.{list_all, list_any};
ghost use Rattle.std.specs.Char.{is_ascii_digit};
ghost use Rattle.nc_model.specs.Stamp as stamp;
ghost use Rattle.httparse.specs.Spans.{IsHeaderWithin, IsResponseWithin, header_bytes};
ghost use Rattle.web_frame.specs.Said as said;
ghost use Rattle.dap_client.specs.Length.{IsHeadAt, IsLengthFirst, IsLenAfter, lengths};
ghost use Rattle.dap_client.specs.Reply as spec;

use crate::fault::ClientFault;
use httparse::Status;
use httparse::spans::{EMPTY_HEADER_SPAN, HeaderSpan, ResponseSpans, parse_response};
use web_frame::MAX_FIELDS;

// The most bytes of a body.
const MAX_BODY: u64 = 67_108_864;

// Whether two texts are the same but for the case of ASCII letters.
fn same_word(a: &[u8], b: &[u8]) -> bool
    ensures { result ≡ said.same_word a.now b.now }
{
    a.eq_ignore_ascii_case(b)
}

// Where the parts of a head are, if the bytes are one whole head that fits the room.
fn spans_of(raw: &[u8], lines: &mut [HeaderSpan]) -> Option<ResponseSpans>
    requires { length lines.old ≡ MAX_FIELDS }
    ensures within { IfSome result (IsResponseWithin raw.now lines.new) }
    ensures some { IfSome result (IsHeadAt raw.now lines.new) }
    ensures none { IfNone result (spec.IsHeadIn raw.now None) }
{
    match parse_response(raw, lines) {
        Ok(Status::Complete(spans)) => {
            if spans.len == raw.len() {
                Some(spans)
            } else {
                None
            }
        }
        Ok(Status::Partial) => None,
        Err(_) => None,
    }
}

// Whether all bytes are digits.
fn are_digits(bytes: &[u8]) -> bool
    ensures { result ≡ list_all is_ascii_digit bytes.now }
{
    bytes.iter().all(|byte| byte.is_ascii_digit())
}

// The number that at most ten digits write.
fn number_of(digits: &[u8]) -> u64
    requires { length digits.now ≤ 10 }
    ensures { result ≡ stamp.number_of digits.now }
{
    let mut number = 0;
    for digit in digits {
        number = number * 10 + u64::from(digit.saturating_sub(b'0'));
    }
    number
}

// A length of 1 to 10 digits.
#[tactic(auto, unfolding(crate::specs::Reply::length_of))]
fn length_of(digits: &[u8]) -> Result<u64, ClientFault>
    ensures { result ≡ spec.length_of digits.now }
{
    if are_digits(digits) && 0 < digits.len() && digits.len() <= 10 {
        Ok(number_of(digits))
    } else {
        Err(ClientFault::NoLength)
    }
}

// Whether a line is a `Transfer-Encoding`.
#[tactic(auto, unfolding(crate::specs::Reply::is_transfer))]
fn is_transfer(raw: &[u8], line: &HeaderSpan) -> bool
    requires { IsHeaderWithin (length raw.now) line.now }
    ensures { result ≡ spec.is_transfer (header_bytes raw.now line.now) }
{
    same_word(line.name.of(raw), b"Transfer-Encoding")
}

// Whether a line is a `Content-Length`.
#[tactic(auto, unfolding(crate::specs::Reply::is_length))]
fn is_length(raw: &[u8], line: &HeaderSpan) -> bool
    requires { IsHeaderWithin (length raw.now) line.now }
    ensures { result ≡ spec.is_length (header_bytes raw.now line.now) }
{
    same_word(line.name.of(raw), b"Content-Length")
}

// Whether some line is a `Transfer-Encoding`.
fn has_transfer(raw: &[u8], lines: &[HeaderSpan]) -> bool
    requires { All (IsHeaderWithin (length raw.now)) lines.now }
    ensures { result ≡ list_any spec.is_transfer (map (header_bytes raw.now) lines.now) }
{
    for line in lines {
        if is_transfer(raw, line) {
            return true;
        }
    }
    false
}

// The index of the first line that is a `Content-Length`, or how many lines there are.
#[tactic(auto, using(crate::proofs::LengthLemmas::length_lines))]
fn first_length(raw: &[u8], lines: &[HeaderSpan]) -> usize
    requires { All (IsHeaderWithin (length raw.now)) lines.now }
    ensures within { result ≤ length lines.now }
    ensures lines { lengths raw.now lines.now ≡ lengths raw.now (drop result lines.now) }
    ensures first { IsLengthFirst raw.now (drop result lines.now) }
{
    for index in 0..lines.len() {
        if is_length(raw, &lines[index]) {
            return index;
        }
    }
    lines.len()
}

// The one length that there is.
#[tactic(auto, using(crate::proofs::LengthLemmas::one_length))]
fn only_length(raw: &[u8], lines: &[HeaderSpan]) -> Result<u64, ClientFault>
    requires { All (IsHeaderWithin (length raw.now)) lines.now }
    ensures { result ≡ spec.only_length (lengths raw.now lines.now) }
{
    let at = first_length(raw, lines);
    if lines.len() <= at {
        return Err(ClientFault::NoLength);
    }
    let (_, rest) = lines.split_at(at + 1);
    if first_length(raw, rest) < rest.len() {
        return Err(ClientFault::NoLength);
    }
    length_of(lines[at].value.of(raw))
}

// The length of the body, by the lines of a head.
#[tactic(auto, unfolding(crate::specs::Reply::announced_length))]
fn announced_length(raw: &[u8], lines: &[HeaderSpan]) -> Result<u64, ClientFault>
    requires { All (IsHeaderWithin (length raw.now)) lines.now }
    ensures { result ≡ spec.announced_length (map (header_bytes raw.now) lines.now) }
{
    if has_transfer(raw, lines) {
        Err(ClientFault::NoLength)
    } else {
        only_length(raw, lines)
    }
}

// A length within the limit.
#[tactic(auto, unfolding(crate::specs::Reply::within_limit))]
fn within_limit(len: u64) -> Result<u64, ClientFault>
    ensures { result ≡ spec.within_limit len }
{
    if MAX_BODY < len {
        Err(ClientFault::TooLong(len))
    } else {
        Ok(len)
    }
}

// The length of the body behind a head with this status and these lines.
#[tactic(auto, unfolding(crate::specs::Reply::body_len))]
fn body_len(code: u16, raw: &[u8], lines: &[HeaderSpan]) -> Result<u64, ClientFault>
    requires { All (IsHeaderWithin (length raw.now)) lines.now }
    ensures { result ≡ spec.body_len code (map (header_bytes raw.now) lines.now) }
{
    if code != 200 {
        return Err(ClientFault::Status(code));
    }
    match announced_length(raw, lines) {
        Ok(len) => within_limit(len),
        Err(fault) => Err(fault),
    }
}

/// The length of the body behind a head, or the fault of the head.
pub(crate) fn len_behind(raw: &[u8]) -> Result<u64, ClientFault>
    ensures len { IsLenAfter raw.now result }
    ensures few { IfOk result (λ len. len ≤ 67_108_864) }
{
    let mut room = [EMPTY_HEADER_SPAN; MAX_FIELDS];
    let Some(spans) = spans_of(raw, &mut room) else {
        return Err(ClientFault::BadHead);
    };
    body_len(spans.code, raw, &room[..spans.headers])
}
