//! How many bytes the data of a part takes.
ghost use Rattle.std.specs.Prelude.{◌≡◌, ◌≢◌, ◌+◌, ◌^◌, ◌<◌, [], length};
ghost use Rattle.dap_model.specs.Xdr.{elements_len};
ghost use Rattle.dap_xdr.specs.Content.{part_data};
ghost use Rattle.fm_twod.specs.Chosen.{data_in};
ghost use Rattle.fm_twod.specs.Laid.{content_of};
ghost use Rattle.fm_twod.specs.Parts.{IsSentOf};

use crate::grid::Grid;
use crate::items::items_len;
use crate::row::MAX_RANK;
use crate::section::Section;
use dap_model::{DapKind, Sent};
use dap_number::{element_len, number_len};
use dap_xdr::text_len;

// How many bytes `count` numbers of an array take, with their counts.
fn numbers_len(kind: DapKind, count: u64) -> u128
    ensures exact { result ≡ 8 + elements_len kind count }
    ensures small { result < 2 ^ 98 }
{
    8 + (u128::from(count) * u128::from(element_len(kind)) + 3) / 4 * 4
}

// How many bytes one number or one text takes.
fn alone_len(section: &Section) -> u64
    requires { section.now.sent.slabs ≡ [] }
    ensures { result ≡ length (data_in section.now) }
{
    match section.kind() {
        DapKind::Text => text_len(section.text(0, &[]).len() as u64),
        kind => number_len(kind),
    }
}

// How many bytes an array of numbers or texts takes.
fn many_len(section: &Section) -> u128
    requires { section.now.sent.slabs ≢ [] }
    ensures exact { result ≡ length (data_in section.now) }
    ensures small { result < 2 ^ 98 }
{
    match section.kind() {
        DapKind::Text => {
            let mut room = [0; MAX_RANK];
            let (index, _) = room.split_at_mut(section.rank());
            4 + items_len(section, section.count(), index)
        }
        kind => numbers_len(kind, section.count()),
    }
}

// How many bytes the data of a part takes. It takes no memory. An array of texts costs a walk over its texts.
pub(crate) fn section_len(grid: &Grid, sent: &Sent) -> u128
    requires { IsSentOf grid.now sent.now }
    ensures exact { result ≡ length (part_data (content_of grid.now) sent.now) }

    // An array has fewer than 2^64 elements, and a text fewer than 2^32 bytes.
    ensures small { result < 2 ^ 98 }
{
    let section = Section::new(grid, sent);
    if sent.slabs.get().is_empty() {
        u128::from(alone_len(&section))
    } else {
        many_len(&section)
    }
}
