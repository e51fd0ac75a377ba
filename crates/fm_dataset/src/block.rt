//! The elements of a variable that one row has, where they lie: in the row's file by a slot, or in the prototype.
ghost use Rattle.std.specs.Prelude.{◌≡◌, ◌+◌, ◌*◌, ◌<◌, ◌≤◌, Some, drop, length, slice_get, take};
ghost use Rattle.fm_dataset.specs.Kept.{HasBlock, HasSlotIn, IsBlock, LiesInFile};

use crate::index::first_of;
use fm_model::{Proto, ProtoVar, Row, Slot};
use fm_rows::Rows;

// Some bytes, and the offset in them where elements begin that lie one after another.
#[derive(Clone, Copy)]
pub(crate) struct Block<'a> {
    pub(crate) bytes: &'a [u8],
    pub(crate) begin: u64,
}

fn slot_at(slots: &[Slot], number: usize) -> Slot
    requires { number < length slots.now }
    ensures { slice_get slots.now number ≡ Some result }
{
    slots[number]
}

// The row at an index.
fn row_at(rows: &Rows, index: usize) -> &Row
    requires { index < length rows.now }
    ensures { slice_get rows.now index ≡ Some result.now }
{
    match rows.get(index) {
        None => unreachable!(),
        Some(row) => row,
    }
}

// Where a slot's data begins at an index among the times, within a length.
fn begin_in(slot: Slot, index: u64, len: u64) -> u64
    requires { slot.begin + index * slot.step ≤ len }
    ensures { result ≡ slot.begin + index * slot.step }
{
    slot.begin + index * slot.step
}

// Where the elements of a variable along the axis lie in the file of a row.
fn block_in_file<'a>(proto: &Proto, row: &'a Row, var: &ProtoVar, number: usize) -> Block<'a>
    requires { HasSlotIn proto.now row.now var.now number }
    ensures { LiesInFile proto.now row.now var.now result.bytes.now result.begin }
{
    let file = row.file.get();
    let slot = slot_at(file.slots.as_slice(), number);
    let bytes = file.content.as_slice();
    let begin = begin_in(slot, u64::from(row.index), bytes.len() as u64);
    Block { bytes, begin }
}

// Where the elements of a variable lie that the row of an index list has.
pub(crate) fn block_of<'a>(
    proto: &Proto,
    rows: &'a Rows,
    var: &'a ProtoVar,
    number: usize,
    index: &[u64],
) -> Block<'a>
    requires { HasBlock proto.now rows.now var.now number index.now }
    ensures { IsBlock proto.now rows.now var.now index.now result.bytes.now result.begin }
{
    if var.timed {
        block_in_file(proto, row_at(rows, first_of(index) as usize), var, number)
    } else {
        Block {
            bytes: var.fixed.as_slice(),
            begin: 0,
        }
    }
}

// Some pieces of a block, each of a size, from the one of a number on.
pub(crate) fn pieces_of<'a>(block: Block<'a>, size: u64, first: u64, count: u64) -> &'a [u8]
    requires { block.begin + size * first + size * count ≤ length block.bytes.now }
    ensures { result.now
        ≡ take (size * count) (drop (block.entry.begin + size * first) block.entry.bytes.now) }
{
    let begin = block.begin + size * first;
    let (_, from) = block.bytes.split_at(begin as usize);
    let (found, _) = from.split_at((size * count) as usize);
    found
}
