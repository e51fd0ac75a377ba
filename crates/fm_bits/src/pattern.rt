//! Patterns from the bytes of a file.
ghost use Rattle.std.specs.Prelude.{◌≡◌, ◌↔◌, ◌⊎◌, ◌≢◌, length, IfSome, IsNone};
ghost use Rattle.nc_model.specs.Kind.{size_of};
ghost use Rattle.nc_model.specs.Pattern.{IsPattern, pattern_of_bytes};

use fm_base::{be16, be32, be64};
use nc_model::{Kind, Pattern};

/// The pattern whose bytes these are, the most significant first. `None` exactly where the kind is `Char` or the length
/// isn't the kind's size.
pub fn pattern_at(kind: Kind, bytes: &[u8]) -> Option<Pattern>
    ensures value { result ≡ pattern_of_bytes kind bytes.now }
    ensures pattern { IfSome result IsPattern }
    ensures none { IsNone result ↔ ((kind ≡ Kind.Char) ⊎ (length bytes.now ≢ size_of kind)) }
{
    if bytes.len() != usize::from(kind.size()) {
        return None;
    }
    let bits = match kind {
        Kind::Char => return None,
        Kind::Byte => u64::from(bytes[0]),
        Kind::Short => u64::from(be16(bytes, 0)?),
        Kind::Int | Kind::Float => u64::from(be32(bytes, 0)?),
        Kind::Double => be64(bytes, 0)?,
    };
    Some(Pattern { kind, bits })
}
