//! Words in the values of header lines.
ghost use Rattle.std.specs.Prelude.{◌≡◌, ◌==◌, reverse};
ghost use Rattle.std.specs.List.{list_any, slice_split};
ghost use Rattle.httparse.specs.Ascii.{comma};
ghost use Rattle.httparse.specs.Grammar.{skip_ows, trim_ows};
ghost use Rattle.web_frame.specs.Said as spec;

// Whether two texts are the same but for the case of ASCII letters.
pub(crate) fn same_word(a: &[u8], b: &[u8]) -> bool
    ensures { result ≡ spec.same_word a.now b.now }
{
    a.eq_ignore_ascii_case(b)
}

// The bytes from the first that is no space or tab.
fn skip_front(bytes: &[u8]) -> &[u8]
    ensures { result.now ≡ skip_ows bytes.now }
{
    let mut left = bytes;
    while let [b' ' | b'\t', rest @ ..] = left {
        left = rest;
    }
    left
}

// The bytes up to the last that is no space or tab.
fn skip_back(bytes: &[u8]) -> &[u8]
    ensures { result.now ≡ reverse (skip_ows (reverse bytes.now)) }
{
    let mut left = bytes;
    while let [rest @ .., b' ' | b'\t'] = left {
        left = rest;
    }
    left
}

// The bytes without the spaces and tabs at both ends.
#[tactic(auto, unfolding(httparse::specs::Grammar::trim_ows))]
fn trimmed(bytes: &[u8]) -> &[u8]
    ensures { result.now ≡ trim_ows bytes.now }
{
    skip_back(skip_front(bytes))
}

// Whether a value, cut at its commas, has this word.
#[tactic(auto, unfolding(crate::specs::Said::has_word))]
pub(crate) fn has_word(value: &[u8], word: &[u8]) -> bool
    ensures { result ≡ spec.has_word word.now value.now }
{
    value
        .split(|b| *b == b',')
        .any(|part| same_word(trimmed(part), word))
}
