//! The bytes of names.
ghost use Rattle.std.specs.Prelude.{◌≡◌};
ghost use Rattle.fm_base.specs.Name.{is_name_byte};

/// Whether a byte may stand in the name of a collection, of what a view shows, or in a constraint: a letter, a digit,
/// `_` or `-`.
#[tactic(auto, unfolding(crate::specs::Name::is_name_byte))]
pub fn is_name_byte(byte: u8) -> bool
    ensures { result ≡ is_name_byte byte }
{
    byte.is_ascii_alphanumeric() || byte == b'_' || byte == b'-'
}
