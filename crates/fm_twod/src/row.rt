//! The values of one row of the dataset of all cells.
ghost use Rattle.std.specs.Prelude.{◌≡◌, ◌+◌, ◌<◌, ◌≤◌, Some, length};
ghost use Rattle.dap_model.specs.declared.declaration.Array.{Array as SpecArray};
ghost use Rattle.dap_model.specs.Xdr.{AreBitsOf};
ghost use Rattle.fm_dataset.specs.Values.{array_at, bits_of, text_of_part, HasNumber, HasText};
ghost use Rattle.fm_twod.specs.Laid.{in_row};

use fm_dataset::Dataset;

// The greatest rank of an array.
pub(crate) const MAX_RANK: usize = 1025;

// A rank that few arrays pass: room for an index list of it is cleared in no time.
pub(crate) const FEW: usize = 8;

// Writes an index list in a row.
fn put_row(number: u64, index: &[u64], at: &mut [u64])
    requires two { 2 ≤ length index.now }
    requires room { length at.old + 1 ≡ length index.now }
    ensures { at.new ≡ in_row number index.now }
{
    let (_, others) = index.split_at(2);
    let (first, rest) = at.split_at_mut(1);
    first[0] = number;
    rest.copy_from_slice(others);
}

// The bits of a number of a row. The buffer `room` has room for an index list.
fn bits_with(cells: &Dataset, decl: u32, number: u64, index: &[u64], room: &mut [u64]) -> u64
    requires has { HasNumber cells.now decl 0 (in_row number index.now) }
    requires two { 2 ≤ length index.now }
    requires room { length index.now ≤ length room.old }
    ensures value { result ≡ bits_of cells.now decl 0 (in_row number index.now) }
    ensures width { (array : SpecArray) → array_at cells.now decl 0 ≡ Some array → AreBitsOf array.kind result }
{
    let (at, _) = room.split_at_mut(index.len() - 1);
    put_row(number, index, at);
    cells.bits(decl, 0, at)
}

// The bits of a number of a row, at the indices after the first two.
pub(crate) fn row_bits(cells: &Dataset, decl: u32, number: u64, index: &[u64]) -> u64
    requires has { HasNumber cells.now decl 0 (in_row number index.now) }
    requires two { 2 ≤ length index.now }
    requires few { length index.now ≤ 1025 }
    ensures value { result ≡ bits_of cells.now decl 0 (in_row number index.now) }
    ensures width { (array : SpecArray) → array_at cells.now decl 0 ≡ Some array → AreBitsOf array.kind result }
{
    if index.len() <= FEW {
        bits_with(cells, decl, number, index, &mut [0; FEW])
    } else {
        bits_with(cells, decl, number, index, &mut [0; MAX_RANK])
    }
}

// A text of a row. The buffer `room` has room for an index list.
fn text_with<'a>(
    cells: &'a Dataset,
    decl: u32,
    number: u64,
    index: &[u64],
    room: &mut [u64],
) -> &'a [u8]
    requires has { HasText cells.now decl 0 (in_row number index.now) }
    requires two { 2 ≤ length index.now }
    requires room { length index.now ≤ length room.old }
    ensures { result.now ≡ text_of_part cells.now decl 0 (in_row number index.now) }
{
    let (at, _) = room.split_at_mut(index.len() - 1);
    put_row(number, index, at);
    cells.text(decl, 0, at)
}

// A text of a row, at the indices after the first two.
pub(crate) fn row_text<'a>(cells: &'a Dataset, decl: u32, number: u64, index: &[u64]) -> &'a [u8]
    requires has { HasText cells.now decl 0 (in_row number index.now) }
    requires two { 2 ≤ length index.now }
    requires few { length index.now ≤ 1025 }
    ensures { result.now ≡ text_of_part cells.now decl 0 (in_row number index.now) }
{
    if index.len() <= FEW {
        text_with(cells, decl, number, index, &mut [0; FEW])
    } else {
        text_with(cells, decl, number, index, &mut [0; MAX_RANK])
    }
}
