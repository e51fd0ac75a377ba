//! Empty lines before a head.
ghost use Rattle.std.specs.Prelude.{◌≡◌};
ghost use Rattle.web_frame.specs.Cut as spec;

// The bytes after the empty lines at the front.
#[tactic(auto, unfolding(crate::specs::Cut::after_blank, crate::specs::Cut::begins_with_empty_line, crate::specs::Cut::begins_with_line_feed))]
pub(crate) fn skip_blank(bytes: &[u8]) -> &[u8]
    ensures { result.now ≡ spec.after_blank bytes.now }
{
    let mut left = bytes;
    while let [b'\n', rest @ ..] | [b'\r', b'\n', rest @ ..] = left {
        left = rest;
    }
    left
}
