//! Numbers at an offset of some bytes, the most significant byte first.
ghost use Rattle.std.specs.Prelude.{◌≡◌};
ghost use Rattle.std.specs.Int.{w16, w32, w64};
ghost use Rattle.fm_base.specs.Field.{field_at};

/// The number of two bytes at an offset. `None` exactly where they don't lie in the bytes.
pub fn be16(bytes: &[u8], at: usize) -> Option<u16>
    ensures { result ≡ field_at w16 bytes.now at }
{
    if bytes.len() < at || bytes.len() - at < 2 {
        return None;
    }
    let (_, rest) = bytes.split_at(at);
    Some(u16::from_be_bytes([rest[0], rest[1]]))
}

/// The number of four bytes at an offset. `None` exactly where they don't lie in the bytes.
pub fn be32(bytes: &[u8], at: usize) -> Option<u32>
    ensures { result ≡ field_at w32 bytes.now at }
{
    if bytes.len() < at || bytes.len() - at < 4 {
        return None;
    }
    let (_, rest) = bytes.split_at(at);
    Some(u32::from_be_bytes([rest[0], rest[1], rest[2], rest[3]]))
}

/// The number of eight bytes at an offset. `None` exactly where they don't lie in the bytes.
pub fn be64(bytes: &[u8], at: usize) -> Option<u64>
    ensures { result ≡ field_at w64 bytes.now at }
{
    if bytes.len() < at || bytes.len() - at < 8 {
        return None;
    }
    let (_, rest) = bytes.split_at(at);
    Some(u64::from_be_bytes([
        rest[0], rest[1], rest[2], rest[3], rest[4], rest[5], rest[6], rest[7],
    ]))
}
