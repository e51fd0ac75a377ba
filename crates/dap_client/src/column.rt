//! The values of arrays.
ghost use Rattle.std.specs.Prelude.{◌≡◌, ◌*◌, [], true, false, nat_le, IfSome, IfNone};
ghost use Rattle.std.specs.Int.{w32, to_be_bytes};
ghost use Rattle.dap_model.specs.Picking.{parts_of};
ghost use Rattle.dap_client.specs.DataReading as data_of;
ghost use Rattle.dap_client.specs.Reading as scan;
ghost use Rattle.dap_client.specs.Reading.{Reads};
ghost use Rattle.dap_client.specs.TextReading.{MOST_VALUES};

use crate::cursor::Cursor;
use crate::elements::read_elements;
use crate::message::Column;
use crate::number::{read_number, read_word_of_4, zeros_after};
use crate::shape::MOST_VALUES;
use dap_model::{Array, DapKind, Decl};
use fm_base::{Bytes, Fail, List};
use nc_model::Dim;
use std::alloc::Global;

// How many values there are with one dimension more, unless they are more than can be counted.
fn times(count: u32, size: u64) -> Option<u32>
    ensures some { IfSome result (λ next. nat_le (count * size) MOST_VALUES ≡ true) }
    ensures value { IfSome result (λ next. next ≡ count * size) }
    ensures none { IfNone result (nat_le (count * size) MOST_VALUES ≡ false) }
{
    let next = u64::from(count).checked_mul(size)?;
    if MOST_VALUES < next {
        return None;
    }
    Some(next as u32)
}

// How many values an array has, unless they are more than can be counted.
#[tactic(auto, using(crate::proofs::ColumnTurns::counting), unfolding(crate::specs::DataReading::counted))]
fn counted(dims: &[Dim]) -> Option<u32>
    ensures { result ≡ data_of.counted dims.now }
{
    let mut count: u32 = 1;
    for dim in dims {
        count = times(count, dim.size)?;
    }
    Some(count)
}

// Reads a text: its length, its bytes and zero bytes.
#[tactic(auto, unfolding(crate::specs::DataReading::text_at))]
fn read_text(alloc: Global, cursor: &mut Cursor<'_>) -> Result<Bytes, Fail<u64>>
    ensures { Reads (λ word. word) (data_of.text_at cursor.old) result cursor.new }
{
    let len = read_word_of_4(cursor)?;
    let word = cursor.bytes(len)?;
    cursor.fixed(zeros_after(len))?;
    Ok(Bytes::copy_of(alloc, word)?)
}

#[tactic(auto, unfolding(crate::specs::DataReading::is_text))]
fn is_text(kind: DapKind) -> bool
    ensures { result ≡ data_of.is_text kind }
{
    match kind {
        DapKind::Text => true,
        _ => false,
    }
}

// Reads a column of one text.
fn read_text_alone(alloc: Global, cursor: &mut Cursor<'_>) -> Result<Column, Fail<u64>>
    ensures { Reads (λ column. column) (data_of.text_alone_at cursor.old) result cursor.new }
{
    let word = read_text(alloc, cursor)?;
    let mut words = List::new(alloc);
    words.push(word)?;
    Ok(Column::Texts(words))
}

// Reads a column of one number.
fn read_number_alone(
    alloc: Global,
    cursor: &mut Cursor<'_>,
    kind: DapKind,
) -> Result<Column, Fail<u64>>
    ensures { Reads (λ column. column) (data_of.number_alone_at kind cursor.old) result cursor.new }
{
    let next = read_number(cursor, kind)?;
    let mut bits = List::new(alloc);
    bits.push(next)?;
    Ok(Column::Numbers(bits))
}

// Reads a column of one number or text.
#[tactic(auto, unfolding(crate::specs::DataReading::alone_at))]
fn read_alone(alloc: Global, cursor: &mut Cursor<'_>, kind: DapKind) -> Result<Column, Fail<u64>>
    ensures { Reads (λ column. column) (data_of.alone_at kind cursor.old) result cursor.new }
{
    if is_text(kind) {
        read_text_alone(alloc, cursor)
    } else {
        read_number_alone(alloc, cursor, kind)
    }
}

// Reads n texts, one after the other.
#[tactic(auto, using(crate::proofs::TurnLemmas::repeats))]
fn read_words(alloc: Global, cursor: &mut Cursor<'_>, count: u32) -> Result<List<Bytes>, Fail<u64>>
    ensures { Reads (λ words. words) (scan.repeat_at data_of.text_at count [] cursor.old) result cursor.new }
{
    let mut words = List::new(alloc);
    for _turn in 0..count {
        let next = read_text(alloc, cursor)?;
        words.push(next)?;
    }
    Ok(words)
}

// Passes over a number of four bytes.
fn read_count(cursor: &mut Cursor<'_>, count: u32) -> Result<(), Fail<u64>>
    ensures { Reads (λ u. u) (scan.fixed_at (to_be_bytes w32 count) cursor.old) result cursor.new }
{
    cursor.fixed(&count.to_be_bytes())
}

// Reads n texts in an array.
#[tactic(auto, unfolding(crate::specs::DataReading::texts_at))]
fn read_texts(alloc: Global, cursor: &mut Cursor<'_>, count: u32) -> Result<Column, Fail<u64>>
    ensures { Reads (λ column. column) (data_of.texts_at count cursor.old) result cursor.new }
{
    read_count(cursor, count)?;
    Ok(Column::Texts(read_words(alloc, cursor, count)?))
}

// Reads n numbers in an array, behind how many they are, twice.
#[tactic(auto, unfolding(crate::specs::DataReading::numbers_at))]
fn read_numbers(
    alloc: Global,
    cursor: &mut Cursor<'_>,
    kind: DapKind,
    count: u32,
) -> Result<Column, Fail<u64>>
    ensures { Reads (λ column. column) (data_of.numbers_at kind count cursor.old) result cursor.new }
{
    read_count(cursor, count)?;
    read_count(cursor, count)?;
    Ok(Column::Numbers(read_elements(alloc, cursor, kind, count)?))
}

// Reads a column of n values in an array.
#[tactic(auto, unfolding(crate::specs::DataReading::along_at))]
fn read_along(
    alloc: Global,
    cursor: &mut Cursor<'_>,
    kind: DapKind,
    count: u32,
) -> Result<Column, Fail<u64>>
    ensures { Reads (λ column. column) (data_of.along_at kind count cursor.old) result cursor.new }
{
    if is_text(kind) {
        read_texts(alloc, cursor, count)
    } else {
        read_numbers(alloc, cursor, kind, count)
    }
}

// Reads the column of an array.
#[tactic(auto, unfolding(crate::specs::DataReading::column_at, crate::specs::DataReading::column_along))]
fn read_column(alloc: Global, cursor: &mut Cursor<'_>, array: &Array) -> Result<Column, Fail<u64>>
    ensures { Reads (λ column. column) (data_of.column_at array.now cursor.old) result cursor.new }
{
    if array.dims.len() == 0 {
        return read_alone(alloc, cursor, array.kind);
    }
    match counted(array.dims.as_slice()) {
        Some(count) => read_along(alloc, cursor, array.kind, count),
        None => Err(Fail::Fault(cursor.at())),
    }
}

// Reads the column of an array, after others.
#[tactic(auto, unfolding(crate::specs::DataReading::column_after))]
fn read_after(
    alloc: Global,
    cursor: &mut Cursor<'_>,
    array: &Array,
    columns: &mut List<Column>,
) -> Result<(), Fail<u64>>
    ensures { Reads (λ _. columns.new)
        (data_of.column_after columns.old array.now cursor.old) result cursor.new }
{
    let column = read_column(alloc, cursor, array)?;
    columns.push(column)?;
    Ok(())
}

// Reads the columns of arrays, after others.
#[tactic(auto, using(crate::proofs::ColumnTurns::columns_in_turn))]
fn read_arrays(
    alloc: Global,
    cursor: &mut Cursor<'_>,
    arrays: &[Array],
    columns: &mut List<Column>,
) -> Result<(), Fail<u64>>
    ensures { Reads (λ _. columns.new)
        (data_of.columns_after columns.old arrays.now cursor.old) result cursor.new }
{
    for array in arrays {
        read_after(alloc, cursor, array, columns)?;
    }
    Ok(())
}

// Reads the columns of the parts of a declaration, after others.
#[tactic(auto, unfolding(crate::specs::DataReading::columns_after))]
fn read_parts(
    alloc: Global,
    cursor: &mut Cursor<'_>,
    decl: &Decl,
    columns: &mut List<Column>,
) -> Result<(), Fail<u64>>
    ensures { Reads (λ _. columns.new)
        (data_of.columns_after columns.old (parts_of decl.now) cursor.old) result cursor.new }
{
    match decl {
        Decl::Plain(array) => read_after(alloc, cursor, array, columns),
        Decl::Grid {
            name: _,
            array,
            maps,
        } => {
            read_after(alloc, cursor, array, columns)?;
            read_arrays(alloc, cursor, maps.as_slice(), columns)
        }
        Decl::Structure { name: _, members } => {
            read_arrays(alloc, cursor, members.as_slice(), columns)
        }
    }
}

// Reads the columns of declarations.
#[tactic(auto, using(crate::proofs::ColumnTurns::columns_in_turn))]
pub(crate) fn read_columns(
    alloc: Global,
    cursor: &mut Cursor<'_>,
    decls: &[Decl],
) -> Result<List<Column>, Fail<u64>>
    ensures { Reads (λ columns. columns) (data_of.columns_at decls.now [] cursor.old) result cursor.new }
{
    let mut columns = List::new(alloc);
    for decl in decls {
        read_parts(alloc, cursor, decl, &mut columns)?;
    }
    Ok(columns)
}
