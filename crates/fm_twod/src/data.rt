//! The data of all parts that are sent of a view, one after the other.
ghost use Rattle.std.specs.Prelude.{◌≡◌, ◌^◌, ◌<◌, drop, length, All};
ghost use Rattle.dap_number.specs.Overlay.{IsPut};
ghost use Rattle.dap_xdr.specs.Content.{data_of, part_data};
ghost use Rattle.fm_twod.specs.Laid.{content_of};
ghost use Rattle.fm_twod.specs.Parts.{IsSentOf};

use crate::grid::Grid;
use crate::len::section_len;
use crate::piece::section_piece;
use dap_model::Sent;

// How many bytes the data takes.
pub(crate) fn data_len(grid: &Grid, sent: &[Sent]) -> u128
    requires sent { All (IsSentOf grid.now) sent.now }
    requires few { length sent.now < 2 ^ 28 }
    ensures exact { result ≡ length (data_of (content_of grid.now) sent.now) }
    ensures small { result < 2 ^ 126 }
{
    let mut len: u128 = 0;
    for part in sent {
        len += section_len(grid, part);
    }
    len
}

// How many bytes the data of a part takes.
fn part_len(grid: &Grid, part: &Sent) -> u64
    requires sent { IsSentOf grid.now part.now }
    requires small { length (part_data (content_of grid.now) part.now) < 2 ^ 64 }
    ensures { result ≡ length (part_data (content_of grid.now) part.now) }
{
    section_len(grid, part) as u64
}

// Writes the data of a part, which takes `len` bytes, from an offset on over the front of a buffer, as much as fits.
fn put_part(grid: &Grid, part: &Sent, len: u64, from: u64, out: &mut [u8]) -> usize
    requires sent { IsSentOf grid.now part.now }
    requires len { len ≡ length (part_data (content_of grid.now) part.now) }
    ensures { IsPut (drop from (part_data (content_of grid.now) part.now)) out.old out.new result }
{
    if from >= len {
        return 0;
    }
    section_piece(grid, part, from, out)
}

// Writes the data from an offset on over the front of a buffer, as much as fits.
pub(crate) fn put_data(grid: &Grid, sent: &[Sent], from: u64, out: &mut [u8]) -> usize
    requires sent { All (IsSentOf grid.now) sent.now }
    requires small { length (data_of (content_of grid.now) sent.now) < 2 ^ 64 }
    ensures { IsPut (drop from (data_of (content_of grid.now) sent.now)) out.old out.new result }
{
    let mut filled = 0;
    let mut left = from;
    let mut index = 0;
    while index < sent.len() && filled < out.len() {
        let part = &sent[index];
        let len = part_len(grid, part);
        let (_, rest) = out.split_at_mut(filled);
        filled += put_part(grid, part, len, left, rest);
        left = left.saturating_sub(len);
        index += 1;
    }
    filled
}
