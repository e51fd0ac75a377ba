//! Reads one whole head.
ghost use Rattle.std.specs.Prelude.{◌≡◌, ◌≤◌, true, false, length, IfSome, IfNone};
ghost use Rattle.httparse.specs.Spans.{IsWithin, IsRequestWithin, IsRequestAt, span_bytes};
ghost use Rattle.web_frame.specs.Head.{head_of, is_head};
ghost use Rattle.web_frame.specs.Items.{request, bad_head, item_of};

use crate::field::{has_body, method_of, says_close};
use crate::limit::MAX_FIELDS;
use crate::request::Request;
use httparse::Status;
use httparse::spans::{EMPTY_HEADER_SPAN, HeaderSpan, RequestSpans, Span, parse_request};

// Where the parts of a head are, if the bytes are one whole head that fits the room.
fn spans_of(raw: &[u8], lines: &mut [HeaderSpan]) -> Option<RequestSpans>
    requires { length lines.old ≡ MAX_FIELDS }
    ensures within { IfSome result (IsRequestWithin raw.now lines.new) }
    ensures whole { IfSome result (λ spans. spans.len ≡ length raw.now) }
    ensures head { IfSome result (λ spans. IsRequestAt raw.now lines.new spans (head_of raw.now)) }
    ensures some { IfSome result (λ _. is_head raw.now ≡ true) }
    ensures none { IfNone result (is_head raw.now ≡ false) }
{
    match parse_request(raw, lines) {
        Ok(Status::Complete(spans)) => {
            if spans.len == raw.len() {
                Some(spans)
            } else {
                None
            }
        }
        Ok(Status::Partial) => None,
        Err(_) => None,
    }
}

// The request of a head, and the span of its target. `None` where the bytes aren't one whole head.
#[tactic(auto, unfolding(crate::specs::Items::item_of, crate::specs::Said::request_of))]
pub(crate) fn read_head(raw: &[u8]) -> Option<(Request, Span)>
    ensures within { IfSome result (λ found. IsWithin (length raw.now) found.1) }
    ensures some { IfSome result (λ found.
        item_of raw.now ≡ request found.0 (span_bytes raw.now found.1)) }
    ensures none { IfNone result (item_of raw.now ≡ bad_head) }
{
    let mut room = [EMPTY_HEADER_SPAN; MAX_FIELDS];
    let spans = spans_of(raw, &mut room)?;
    let lines = &room[..spans.headers];
    let request = Request {
        method: method_of(spans.method.of(raw)),
        close: says_close(raw, spans.version, lines),
        has_body: has_body(raw, lines),
    };
    Some((request, spans.path))
}
