//! Where the lists of a page stand in the next page, as far as it is known.
ghost use Rattle.std.specs.Prelude.{◌≡◌, ◌<◌, ◌+◌, IfOk, get_or, length, slice_set};
ghost use Rattle.fm_edition.specs.Turning as spec;

use crate::maps::file_list::FileList;
use crate::maps::page::turning::turn::Turn;
use fm_base::{List, NoMemory};
use std::alloc::Global;

/// The index of some files among the next page's lists, where it is known. No files have none.
#[derive(Clone, Copy)]
pub(crate) enum Spot {
    Unknown,
    Known(Option<usize>),
}

/// The spots of a list of the page before, one for each turn.
#[derive(Clone, Copy)]
pub(crate) struct Spots {
    pub left: Spot,
    pub taken: Spot,
    pub added: Spot,
}

impl Spots {
    ghost use Rattle.std.specs.Prelude.{◌≡◌};
    ghost use Rattle.fm_edition.specs.Turning as spec;

    // The spot after a turn.
    pub(crate) fn after(&self, turn: Turn) -> Spot
        ensures { result ≡ spec.spot_of turn self.now }
    {
        match turn {
            Turn::Leaves => self.left,
            Turn::Takes => self.taken,
            Turn::Adds => self.added,
        }
    }

    // The same with another spot after a turn.
    fn with(self, turn: Turn, spot: Spot) -> Spots
        ensures { result ≡ spec.with_spot turn spot self }
    {
        match turn {
            Turn::Leaves => Spots { left: spot, ..self },
            Turn::Takes => Spots {
                taken: spot,
                ..self
            },
            Turn::Adds => Spots {
                added: spot,
                ..self
            },
        }
    }
}

// Spots of which nothing is known, for each of some lists and for no files.
pub(crate) fn unknown(alloc: Global, lists: &[FileList]) -> Result<List<Spots>, NoMemory>
    ensures { IfOk result (spec.AreUnknown (length lists.now + 1)) }
{
    let spots = Spots {
        left: Spot::Unknown,
        taken: Spot::Unknown,
        added: Spot::Unknown,
    };
    let items = Vec::with_capacity(alloc, lists.len().saturating_add(1))?;
    let mut table = List { items };
    for _list in lists {
        table.push(spots)?;
    }
    table.push(spots)?;
    Ok(table)
}

// Notes where the files at an index stand after a turn.
pub(crate) fn note(spots: &mut List<Spots>, index: usize, turn: Turn, at: Option<usize>)
    requires { index < length spots.old }
    ensures { spots.new ≡ slice_set spots.old index
        (spec.with_spot turn (spec.known at) (get_or spots.old index spec.no_spots)) }
{
    spots.items[index] = spots.items[index].with(turn, Spot::Known(at));
}
