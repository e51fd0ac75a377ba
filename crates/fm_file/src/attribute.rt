//! Attributes and their texts.
ghost use Rattle.std.specs.Prelude.{◌≡◌, MatchOption, None, Some};
ghost use Rattle.fm_model.specs.Attribute.{attr_named, attr_text, has_text, is_char, text_of, trimmed};
ghost use Rattle.fm_model.specs.Variable.{is_same_kind};

use nc_model::{Attr, Kind};

/// Whether values of this kind are characters.
pub fn is_char(kind: Kind) -> bool
    ensures { result ≡ is_char kind }
{
    matches!(kind, Kind::Char)
}

/// Whether two kinds are the same.
pub fn is_same_kind(kind: Kind, other: Kind) -> bool
    ensures { result ≡ is_same_kind kind other }
{
    kind == other
}

/// Some bytes without the zero bytes at their end.
#[tactic(auto, unfolding(fm_model::specs::Attribute::trimmed))]
pub fn trimmed(bytes: &[u8]) -> &[u8]
    ensures { result.now ≡ trimmed bytes.now }
{
    let mut len = bytes.len();
    while len > 0 && bytes[len - 1] == 0 {
        len -= 1;
    }
    &bytes[..len]
}

// The text of an attribute. Only one of characters has one.
#[tactic(auto, unfolding(fm_model::specs::Attribute::attr_text))]
pub(crate) fn attr_text(attr: &Attr) -> Option<&[u8]>
    ensures { MatchOption result (attr_text attr.now ≡ None) (λ text. attr_text attr.now ≡ Some text.now) }
{
    if is_char(attr.kind) {
        Some(trimmed(attr.values.as_slice()))
    } else {
        None
    }
}

// The first attribute of this name.
pub(crate) fn attr_named<'a>(attrs: &'a [Attr], name: &[u8]) -> Option<&'a Attr>
    ensures { MatchOption result
        (attr_named attrs.now name.now ≡ None)
        (λ attr. attr_named attrs.now name.now ≡ Some attr.now) }
{
    for attr in attrs {
        if attr.name.as_slice() == name {
            return Some(attr);
        }
    }
    None
}

/// The text of the first attribute of this name.
#[tactic(auto, unfolding(fm_model::specs::Attribute::text_of))]
pub fn text_of<'a>(attrs: &'a [Attr], name: &[u8]) -> Option<&'a [u8]>
    ensures { MatchOption result
        (text_of attrs.now name.now ≡ None)
        (λ text. text_of attrs.now name.now ≡ Some text.now) }
{
    match attr_named(attrs, name) {
        None => None,
        Some(attr) => attr_text(attr),
    }
}

/// Whether the first attribute of this name has this text.
#[tactic(auto, unfolding(fm_model::specs::Attribute::has_text))]
pub fn has_text(attrs: &[Attr], name: &[u8], text: &[u8]) -> bool
    ensures { result ≡ has_text attrs.now name.now text.now }
{
    text_of(attrs, name) == Some(text)
}
