//! The numbers of an array as XDR.
ghost use Rattle.std.specs.Prelude.{◌≡◌, [], IfOk};
ghost use Rattle.dap_client.specs.DataReading as data_of;
ghost use Rattle.dap_client.specs.Reading as scan;
ghost use Rattle.dap_client.specs.Reading.{Reads};

use crate::cursor::Cursor;
use crate::number::{next_octet, next_word_of_4, next_word_of_8, read_element, zeros_after};
use dap_model::DapKind;
use fm_base::{Fail, List, NoMemory};
use std::alloc::Global;

// An empty list with room for n numbers.
fn with_room(alloc: Global, count: u32) -> Result<List<u64>, NoMemory>
    ensures { IfOk result (λ bits. bits ≡ []) }
{
    let items = Vec::with_capacity(alloc, count as usize)?;
    Ok(List { items })
}

// Reads n bytes. Room is made once they are known to be there.
#[tactic(auto, using(crate::proofs::TurnLemmas::repeats, crate::proofs::RunLemmas::shorts))]
fn read_octets(alloc: Global, cursor: &mut Cursor<'_>, count: u32) -> Result<List<u64>, Fail<u64>>
    ensures { Reads (λ bits. bits) (scan.repeat_at data_of.octet_at count [] cursor.old) result cursor.new }
{
    if (cursor.left() as u64) < u64::from(count) {
        return Err(Fail::Fault(cursor.end_offset()));
    }
    let mut bits = with_room(alloc, count)?;
    for _turn in 0..count {
        bits.push(next_octet(cursor))?;
    }
    Ok(bits)
}

// Reads n numbers of four bytes. Room is made once they are known to be there.
#[tactic(auto, using(crate::proofs::TurnLemmas::repeats, crate::proofs::RunLemmas::shorts))]
fn read_words_of_4(
    alloc: Global,
    cursor: &mut Cursor<'_>,
    count: u32,
) -> Result<List<u64>, Fail<u64>>
    ensures { Reads (λ bits. bits) (scan.repeat_at data_of.word_of_4_at count [] cursor.old) result cursor.new }
{
    if (cursor.left() as u64) < 4 * u64::from(count) {
        return Err(Fail::Fault(cursor.end_offset()));
    }
    let mut bits = with_room(alloc, count)?;
    for _turn in 0..count {
        bits.push(next_word_of_4(cursor))?;
    }
    Ok(bits)
}

// Reads n numbers of eight bytes. Room is made once they are known to be there.
#[tactic(auto, using(crate::proofs::TurnLemmas::repeats, crate::proofs::RunLemmas::shorts))]
fn read_words_of_8(
    alloc: Global,
    cursor: &mut Cursor<'_>,
    count: u32,
) -> Result<List<u64>, Fail<u64>>
    ensures { Reads (λ bits. bits) (scan.repeat_at data_of.word_of_8_at count [] cursor.old) result cursor.new }
{
    if (cursor.left() as u64) < 8 * u64::from(count) {
        return Err(Fail::Fault(cursor.end_offset()));
    }
    let mut bits = with_room(alloc, count)?;
    for _turn in 0..count {
        bits.push(next_word_of_8(cursor))?;
    }
    Ok(bits)
}

// Reads n numbers of this kind, one call for each.
#[tactic(auto, using(crate::proofs::TurnLemmas::repeats))]
fn read_each(
    alloc: Global,
    cursor: &mut Cursor<'_>,
    kind: DapKind,
    count: u32,
) -> Result<List<u64>, Fail<u64>>
    ensures { Reads (λ bits. bits)
        (scan.repeat_at (data_of.element_at kind) count [] cursor.old) result cursor.new }
{
    let mut bits = List::new(alloc);
    for _turn in 0..count {
        let next = read_element(cursor, kind)?;
        bits.push(next)?;
    }
    Ok(bits)
}

// Reads n numbers of this kind, without what stands behind them. Numbers of which any bytes are one are read in bulk.
#[tactic(auto, unfolding(crate::specs::DataReading::element_at))]
fn read_repeated(
    alloc: Global,
    cursor: &mut Cursor<'_>,
    kind: DapKind,
    count: u32,
) -> Result<List<u64>, Fail<u64>>
    ensures { Reads (λ bits. bits)
        (scan.repeat_at (data_of.element_at kind) count [] cursor.old) result cursor.new }
{
    match kind {
        DapKind::Byte => read_octets(alloc, cursor, count),
        DapKind::Int32 | DapKind::Float32 => read_words_of_4(alloc, cursor, count),
        DapKind::Float64 => read_words_of_8(alloc, cursor, count),
        DapKind::Int16 | DapKind::Text => read_each(alloc, cursor, kind, count),
    }
}

// The zero bytes behind n numbers of this kind.
#[tactic(auto, unfolding(crate::specs::DataReading::filler))]
fn filler(kind: DapKind, count: u32) -> &'static [u8]
    ensures { result.now ≡ data_of.filler kind count }
{
    match kind {
        DapKind::Byte => zeros_after(u64::from(count)),
        _ => b"".as_slice(),
    }
}

// Reads n numbers of this kind in an array.
#[tactic(auto, unfolding(crate::specs::DataReading::elements_at))]
pub(crate) fn read_elements(
    alloc: Global,
    cursor: &mut Cursor<'_>,
    kind: DapKind,
    count: u32,
) -> Result<List<u64>, Fail<u64>>
    ensures { Reads (λ bits. bits) (data_of.elements_at kind count cursor.old) result cursor.new }
{
    let bits = read_repeated(alloc, cursor, kind, count)?;
    cursor.fixed(filler(kind, count))?;
    Ok(bits)
}
