//! The lines of arrays.
ghost use Rattle.dap_client.specs.Reading.{Reads};
ghost use Rattle.dap_client.specs.TextReading as text;

use crate::cursor::Cursor;
use crate::dimension::{read_dims, read_some_dims};
use crate::kind::read_kind;
use dap_model::{Array, DapKind};
use fm_base::{Bytes, Fail};
use std::alloc::Global;

// Reads an array behind its kind, and the end of its line.
#[tactic(auto, unfolding(crate::specs::TextReading::array_at))]
pub(crate) fn read_array(
    alloc: Global,
    cursor: &mut Cursor<'_>,
    kind: DapKind,
) -> Result<Array, Fail<u64>>
    ensures { Reads (λ array. array) (text.array_at kind cursor.old) result cursor.new }
{
    let (name, more) = cursor.name_word(b'[', b';')?;
    let dims = read_dims(alloc, cursor, more)?;
    cursor.fixed(b"\n")?;
    let name = Bytes::copy_of(alloc, name)?;
    Ok(Array { name, kind, dims })
}

// Reads the array of a Grid, which has a dimension or more.
#[tactic(auto, unfolding(crate::specs::TextReading::grid_array_at))]
pub(crate) fn read_grid_array(alloc: Global, cursor: &mut Cursor<'_>) -> Result<Array, Fail<u64>>
    ensures { Reads (λ array. array) (text.grid_array_at cursor.old) result cursor.new }
{
    let kind = read_kind(cursor)?;
    let (name, _) = cursor.name_word(b'[', b'[')?;
    let dims = read_some_dims(alloc, cursor)?;
    cursor.fixed(b"\n")?;
    let name = Bytes::copy_of(alloc, name)?;
    Ok(Array { name, kind, dims })
}
