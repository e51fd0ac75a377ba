//! Attributes that are compared.
ghost use Rattle.std.specs.Prelude.{◌≡◌};
ghost use Rattle.fm_model.specs.Packing as spec;

use crate::attribute::{attr_named, is_char, is_same_kind, trimmed};
use nc_model::Attr;

// What an attribute says: the text of characters, and of numbers their bytes.
#[tactic(auto, unfolding(fm_model::specs::Packing::said_by))]
fn said_by(attr: &Attr) -> &[u8]
    ensures { result.now ≡ spec.said_by attr.now }
{
    if is_char(attr.kind) {
        trimmed(attr.values.as_slice())
    } else {
        attr.values.as_slice()
    }
}

// Whether two attributes are of one kind and say the same.
#[tactic(auto, unfolding(fm_model::specs::Packing::is_same_attr))]
fn is_same_attr(attr: &Attr, other: &Attr) -> bool
    ensures { result ≡ spec.is_same_attr attr.now other.now }
{
    is_same_kind(attr.kind, other.kind) && said_by(attr) == said_by(other)
}

/// Whether the attribute of this name is the same in two lists, or in neither.
#[tactic(auto, unfolding(fm_model::specs::Packing::have_same))]
pub fn have_same(attrs: &[Attr], others: &[Attr], name: &[u8]) -> bool
    ensures { result ≡ spec.have_same attrs.now others.now name.now }
{
    match attr_named(attrs, name) {
        None => attr_named(others, name).is_none(),
        Some(attr) => match attr_named(others, name) {
            None => false,
            Some(other) => is_same_attr(attr, other),
        },
    }
}
