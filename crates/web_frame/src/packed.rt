//! What a frame holds while nothing is read.

use fm_base::Bytes;
use httparse::spans::Span;
use std::marker::Model;

/// What a frame holds, in no more memory than the bytes take. A clause sees it as the frame.
#[derive(Drop)]
pub struct PackedFrame {
    // The head that was given last, and the bytes after it.
    pub(crate) bytes: Bytes,
    // How many bytes that head has, and where its target is.
    pub(crate) given: usize,
    pub(crate) target: Span,
}

impl Model for PackedFrame {
    ghost use Rattle.std.specs.Prelude.{◌≡◌, ◌≤◌, length, take, drop};
    ghost use Rattle.httparse.specs.Spans.{IsWithin, span_bytes};
    ghost use Rattle.web_frame.specs.declared.limit.TheConstants.{MAX_HEAD};
    ghost use Rattle.web_frame.specs.Items.{item_of};
    ghost use Rattle.web_frame.specs.Stream.{Held, target_in};

    ghost Value = { Held };

    ghost view = { λ p. record { head = take p.given p.bytes; rest = drop p.given p.bytes } };

    ghost invariant = { λ p. (length p.bytes ≤ MAX_HEAD)
        × (p.given ≤ length p.bytes)
        × IsWithin p.given p.target
        × (span_bytes (take p.given p.bytes) p.target ≡ target_in (item_of (take p.given p.bytes))) };
}
