//! Numbers as XDR.
ghost use Rattle.std.specs.Prelude.{◌≡◌, ◌<◌, ◌≤◌, ◌+◌, length, IfOk, IfSome, Ok};
ghost use Rattle.dap_model.specs.Xdr.{zeros_after};
ghost use Rattle.dap_client.specs.DataReading as data_of;
ghost use Rattle.dap_client.specs.Reading as scan;
ghost use Rattle.dap_client.specs.Reading.{Reads};

use crate::cursor::Cursor;
use dap_model::DapKind;
use fm_base::Fail;

// Takes one byte.
#[tactic(auto, unfolding(crate::specs::DataReading::octet_at, crate::specs::Reading::bytes_at))]
pub(crate) fn next_octet(cursor: &mut Cursor<'_>) -> u64
    requires { 1 ≤ length cursor.old.rest }
    ensures value { data_of.octet_at cursor.old ≡ Ok (result, cursor.new) }
    ensures left { length cursor.old.rest ≡ 1 + length cursor.new.rest }
    ensures small { result < 256 }
{
    let bytes = cursor.take(1);
    u64::from(bytes[0])
}

// Takes a number of four bytes.
#[tactic(auto, unfolding(crate::specs::DataReading::word_of_4_at, crate::specs::Reading::bytes_at))]
pub(crate) fn next_word_of_4(cursor: &mut Cursor<'_>) -> u64
    requires { 4 ≤ length cursor.old.rest }
    ensures value { data_of.word_of_4_at cursor.old ≡ Ok (result, cursor.new) }
    ensures left { length cursor.old.rest ≡ 4 + length cursor.new.rest }
{
    let bytes = cursor.take(4);
    u64::from(u32::from_be_bytes([bytes[0], bytes[1], bytes[2], bytes[3]]))
}

// Takes a number of eight bytes.
#[tactic(auto, unfolding(crate::specs::DataReading::word_of_8_at, crate::specs::Reading::bytes_at))]
pub(crate) fn next_word_of_8(cursor: &mut Cursor<'_>) -> u64
    requires { 8 ≤ length cursor.old.rest }
    ensures value { data_of.word_of_8_at cursor.old ≡ Ok (result, cursor.new) }
    ensures left { length cursor.old.rest ≡ 8 + length cursor.new.rest }
{
    let bytes = cursor.take(8);
    u64::from_be_bytes([
        bytes[0], bytes[1], bytes[2], bytes[3], bytes[4], bytes[5], bytes[6], bytes[7],
    ])
}

// Reads one byte.
#[tactic(auto, unfolding(crate::specs::DataReading::octet_at, crate::specs::Reading::bytes_at))]
fn read_octet(cursor: &mut Cursor<'_>) -> Result<u64, Fail<u64>>
    ensures read { Reads (λ bits. bits) (data_of.octet_at cursor.old) result cursor.new }
    ensures small { IfOk result (λ bits. bits < 256) }
{
    if cursor.left() < 1 {
        return Err(Fail::Fault(cursor.end_offset()));
    }
    Ok(next_octet(cursor))
}

// Reads a number of four bytes.
#[tactic(auto, unfolding(crate::specs::DataReading::word_of_4_at, crate::specs::Reading::bytes_at))]
pub(crate) fn read_word_of_4(cursor: &mut Cursor<'_>) -> Result<u64, Fail<u64>>
    ensures { Reads (λ bits. bits) (data_of.word_of_4_at cursor.old) result cursor.new }
{
    if cursor.left() < 4 {
        return Err(Fail::Fault(cursor.end_offset()));
    }
    Ok(next_word_of_4(cursor))
}

// Reads a number of eight bytes.
#[tactic(auto, unfolding(crate::specs::DataReading::word_of_8_at, crate::specs::Reading::bytes_at))]
fn read_word_of_8(cursor: &mut Cursor<'_>) -> Result<u64, Fail<u64>>
    ensures { Reads (λ bits. bits) (data_of.word_of_8_at cursor.old) result cursor.new }
{
    if cursor.left() < 8 {
        return Err(Fail::Fault(cursor.end_offset()));
    }
    Ok(next_word_of_8(cursor))
}

// The upper byte of a number of two bytes, where its sign is the one that stands in front.
#[tactic(auto, unfolding(crate::specs::DataReading::upper_byte))]
fn upper_byte(positive: bool, byte: u8) -> Option<u64>
    ensures exact { result ≡ data_of.upper_byte positive byte }
    ensures small { IfSome result (λ upper. upper < 256) }
{
    if (byte < 128) == positive {
        Some(u64::from(byte))
    } else {
        None
    }
}

#[tactic(auto, using(crate::proofs::ByteLemmas::meanings))]
fn read_upper(cursor: &mut Cursor<'_>, positive: bool) -> Result<u64, Fail<u64>>
    ensures read { Reads (λ bits. bits)
        (scan.byte_as (data_of.upper_byte positive) cursor.old) result cursor.new }
    ensures small { IfOk result (λ upper. upper < 256) }
{
    let Some(byte) = cursor.peek() else {
        return Err(Fail::Fault(cursor.at()));
    };
    let Some(upper) = upper_byte(positive, byte) else {
        return Err(Fail::Fault(cursor.at()));
    };
    cursor.step();
    Ok(upper)
}

// Reads a number of two bytes in four, with its sign.
#[tactic(auto, unfolding(crate::specs::DataReading::short_at))]
fn read_short(cursor: &mut Cursor<'_>) -> Result<u64, Fail<u64>>
    ensures { Reads (λ bits. bits) (data_of.short_at cursor.old) result cursor.new }
{
    let positive = cursor.mark(0, 255)?;
    cursor.byte(if positive { 0 } else { 255 })?;
    let upper = read_upper(cursor, positive)?;
    let lower = read_octet(cursor)?;
    Ok(upper * 256 + lower)
}

// Reads a byte in four.
#[tactic(auto, unfolding(crate::specs::DataReading::octet_of_4_at))]
fn read_octet_of_4(cursor: &mut Cursor<'_>) -> Result<u64, Fail<u64>>
    ensures { Reads (λ bits. bits) (data_of.octet_of_4_at cursor.old) result cursor.new }
{
    cursor.fixed(b"\0\0\0")?;
    read_octet(cursor)
}

// Reads a number of this kind alone.
#[tactic(auto, unfolding(crate::specs::DataReading::number_at))]
pub(crate) fn read_number(cursor: &mut Cursor<'_>, kind: DapKind) -> Result<u64, Fail<u64>>
    ensures { Reads (λ bits. bits) (data_of.number_at kind cursor.old) result cursor.new }
{
    match kind {
        DapKind::Byte => read_octet_of_4(cursor),
        DapKind::Int16 => read_short(cursor),
        DapKind::Int32 => read_word_of_4(cursor),
        DapKind::Float32 => read_word_of_4(cursor),
        DapKind::Float64 => read_word_of_8(cursor),
        DapKind::Text => Ok(0),
    }
}

// Reads a number of this kind in an array.
#[tactic(auto, unfolding(crate::specs::DataReading::element_at))]
pub(crate) fn read_element(cursor: &mut Cursor<'_>, kind: DapKind) -> Result<u64, Fail<u64>>
    ensures { Reads (λ bits. bits) (data_of.element_at kind cursor.old) result cursor.new }
{
    match kind {
        DapKind::Byte => read_octet(cursor),
        DapKind::Int16 => read_short(cursor),
        DapKind::Int32 => read_word_of_4(cursor),
        DapKind::Float32 => read_word_of_4(cursor),
        DapKind::Float64 => read_word_of_8(cursor),
        DapKind::Text => Ok(0),
    }
}

// The zero bytes behind a number of bytes, up to a multiple of four.
#[tactic(auto, using(crate::proofs::ZeroLemmas::zeros))]
pub(crate) fn zeros_after(len: u64) -> &'static [u8]
    ensures { result.now ≡ zeros_after len }
{
    match len % 4 {
        0 => b"".as_slice(),
        1 => b"\0\0\0".as_slice(),
        2 => b"\0\0".as_slice(),
        _ => b"\0".as_slice(),
    }
}
