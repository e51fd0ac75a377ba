//! The words of kinds, and what opens a declaration.
ghost use Rattle.std.specs.Prelude.{◌≡◌};
ghost use Rattle.dap_client.specs.Reading as scan;
ghost use Rattle.dap_client.specs.Reading.{Reads};
ghost use Rattle.dap_client.specs.TextReading as spec;

use crate::cursor::Cursor;
use crate::opening::{Opening, Stem};
use dap_model::DapKind;
use fm_base::Fail;

// What the first letter of a kind stands for.
#[tactic(auto, unfolding(crate::specs::TextReading::stem_of))]
fn stem_of(byte: u8) -> Option<Stem>
    ensures { result ≡ spec.stem_of byte }
{
    match byte {
        b'B' => Some(Stem::Byte),
        b'I' => Some(Stem::Int),
        b'F' => Some(Stem::Float),
        b'S' => Some(Stem::Str),
        _ => None,
    }
}

// What the first letter of a declaration stands for: a kind, or a Grid.
#[tactic(auto, unfolding(crate::specs::TextReading::head_of))]
fn head_of(byte: u8) -> Option<Option<Stem>>
    ensures { result ≡ spec.head_of byte }
{
    match byte {
        b'B' => Some(Some(Stem::Byte)),
        b'I' => Some(Some(Stem::Int)),
        b'F' => Some(Some(Stem::Float)),
        b'S' => Some(Some(Stem::Str)),
        b'G' => Some(None),
        _ => None,
    }
}

// The kind that the digit behind `Int` stands for.
#[tactic(auto, unfolding(crate::specs::TextReading::int_kind))]
fn int_kind(byte: u8) -> Option<DapKind>
    ensures { result ≡ spec.int_kind byte }
{
    match byte {
        b'1' => Some(DapKind::Int16),
        b'3' => Some(DapKind::Int32),
        _ => None,
    }
}

// The kind that the digit behind `Float` stands for.
#[tactic(auto, unfolding(crate::specs::TextReading::float_kind))]
fn float_kind(byte: u8) -> Option<DapKind>
    ensures { result ≡ spec.float_kind byte }
{
    match byte {
        b'3' => Some(DapKind::Float32),
        b'6' => Some(DapKind::Float64),
        _ => None,
    }
}

#[tactic(auto, using(crate::proofs::ByteLemmas::meanings))]
fn read_stem(cursor: &mut Cursor<'_>) -> Result<Stem, Fail<u64>>
    ensures { Reads (λ stem. stem) (scan.byte_as spec.stem_of cursor.old) result cursor.new }
{
    let Some(byte) = cursor.peek() else {
        return Err(Fail::Fault(cursor.at()));
    };
    let Some(stem) = stem_of(byte) else {
        return Err(Fail::Fault(cursor.at()));
    };
    cursor.step();
    Ok(stem)
}

#[tactic(auto, using(crate::proofs::ByteLemmas::meanings))]
fn read_head(cursor: &mut Cursor<'_>) -> Result<Option<Stem>, Fail<u64>>
    ensures { Reads (λ head. head) (scan.byte_as spec.head_of cursor.old) result cursor.new }
{
    let Some(byte) = cursor.peek() else {
        return Err(Fail::Fault(cursor.at()));
    };
    let Some(head) = head_of(byte) else {
        return Err(Fail::Fault(cursor.at()));
    };
    cursor.step();
    Ok(head)
}

#[tactic(auto, using(crate::proofs::ByteLemmas::meanings))]
fn read_int_kind(cursor: &mut Cursor<'_>) -> Result<DapKind, Fail<u64>>
    ensures { Reads (λ kind. kind) (scan.byte_as spec.int_kind cursor.old) result cursor.new }
{
    let Some(byte) = cursor.peek() else {
        return Err(Fail::Fault(cursor.at()));
    };
    let Some(kind) = int_kind(byte) else {
        return Err(Fail::Fault(cursor.at()));
    };
    cursor.step();
    Ok(kind)
}

#[tactic(auto, using(crate::proofs::ByteLemmas::meanings))]
fn read_float_kind(cursor: &mut Cursor<'_>) -> Result<DapKind, Fail<u64>>
    ensures { Reads (λ kind. kind) (scan.byte_as spec.float_kind cursor.old) result cursor.new }
{
    let Some(byte) = cursor.peek() else {
        return Err(Fail::Fault(cursor.at()));
    };
    let Some(kind) = float_kind(byte) else {
        return Err(Fail::Fault(cursor.at()));
    };
    cursor.step();
    Ok(kind)
}

// What follows the byte that settles a kind.
#[tactic(auto, unfolding(crate::specs::TextReading::kind_end))]
fn kind_end(kind: DapKind) -> &'static [u8]
    ensures { result.now ≡ spec.kind_end kind }
{
    match kind {
        DapKind::Byte => b"yte ".as_slice(),
        DapKind::Int16 => b"6 ".as_slice(),
        DapKind::Int32 | DapKind::Float32 => b"2 ".as_slice(),
        DapKind::Float64 => b"4 ".as_slice(),
        DapKind::Text => b"tring ".as_slice(),
    }
}

// Reads the end of a kind that is settled.
#[tactic(auto, unfolding(crate::specs::TextReading::ended_at))]
fn read_ended(cursor: &mut Cursor<'_>, kind: DapKind) -> Result<DapKind, Fail<u64>>
    ensures { Reads (λ kind. kind) (spec.ended_at kind cursor.old) result cursor.new }
{
    cursor.fixed(kind_end(kind))?;
    Ok(kind)
}

#[tactic(auto, unfolding(crate::specs::TextReading::int_at))]
fn read_int(cursor: &mut Cursor<'_>) -> Result<DapKind, Fail<u64>>
    ensures { Reads (λ kind. kind) (spec.int_at cursor.old) result cursor.new }
{
    cursor.fixed(b"nt")?;
    let kind = read_int_kind(cursor)?;
    read_ended(cursor, kind)
}

#[tactic(auto, unfolding(crate::specs::TextReading::float_at))]
fn read_float(cursor: &mut Cursor<'_>) -> Result<DapKind, Fail<u64>>
    ensures { Reads (λ kind. kind) (spec.float_at cursor.old) result cursor.new }
{
    cursor.fixed(b"loat")?;
    let kind = read_float_kind(cursor)?;
    read_ended(cursor, kind)
}

// Reads the word of a kind, and a space.
#[tactic(auto, unfolding(crate::specs::TextReading::kind_at, crate::specs::TextReading::stem_at))]
pub(crate) fn read_kind(cursor: &mut Cursor<'_>) -> Result<DapKind, Fail<u64>>
    ensures { Reads (λ kind. kind) (spec.kind_at cursor.old) result cursor.new }
{
    match read_stem(cursor)? {
        Stem::Byte => read_ended(cursor, DapKind::Byte),
        Stem::Int => read_int(cursor),
        Stem::Float => read_float(cursor),
        Stem::Str => read_ended(cursor, DapKind::Text),
    }
}

// Reads the rest of `String`, or of the line that opens a Structure.
#[tactic(auto, unfolding(crate::specs::TextReading::string_at))]
fn read_string(cursor: &mut Cursor<'_>) -> Result<Opening, Fail<u64>>
    ensures { Reads (λ opening. opening) (spec.string_at cursor.old) result cursor.new }
{
    cursor.fixed(b"tr")?;
    if cursor.mark(b'i', b'u')? {
        cursor.fixed(b"ng ")?;
        Ok(Opening::Plain(DapKind::Text))
    } else {
        cursor.fixed(b"cture {\n")?;
        Ok(Opening::Structure)
    }
}

// Reads the rest of what opens a declaration with this first letter.
#[tactic(auto, unfolding(crate::specs::TextReading::opening_from))]
fn read_opening_from(cursor: &mut Cursor<'_>, head: Option<Stem>) -> Result<Opening, Fail<u64>>
    ensures { Reads (λ opening. opening) (spec.opening_from head cursor.old) result cursor.new }
{
    match head {
        None => {
            cursor.fixed(b"rid {\n")?;
            Ok(Opening::Grid)
        }
        Some(Stem::Byte) => Ok(Opening::Plain(read_ended(cursor, DapKind::Byte)?)),
        Some(Stem::Int) => Ok(Opening::Plain(read_int(cursor)?)),
        Some(Stem::Float) => Ok(Opening::Plain(read_float(cursor)?)),
        Some(Stem::Str) => read_string(cursor),
    }
}

// Reads what opens a declaration: the word of a kind and a space, or the line of a Grid or a Structure.
#[tactic(auto, unfolding(crate::specs::TextReading::opening_at))]
pub(crate) fn read_opening(cursor: &mut Cursor<'_>) -> Result<Opening, Fail<u64>>
    ensures { Reads (λ opening. opening) (spec.opening_at cursor.old) result cursor.new }
{
    let head = read_head(cursor)?;
    read_opening_from(cursor, head)
}
