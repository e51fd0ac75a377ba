//! The parts of a declaration, to which slabs are given.
ghost use Rattle.std.specs.Prelude.{◌≡◌, MatchOption, None, Some, slice_get};
ghost use Rattle.dap_model.specs.Picking.{parts_of};

use dap_model::{Array, Decl};

/// The part of a declaration that has this number: the array, the maps of a Grid after its array, or the member of a
/// Structure. `None` past the last.
pub fn part_of(decl: &Decl, part: usize) -> Option<&Array>
    ensures { MatchOption result (slice_get (parts_of decl.now) part ≡ None)
        (λ array. slice_get (parts_of decl.now) part ≡ Some array.now) }
{
    match decl {
        Decl::Plain(array) if part == 0 => Some(array),
        Decl::Plain(_) => None,
        Decl::Grid { array, .. } if part == 0 => Some(array),
        Decl::Grid { maps, .. } => maps.as_slice().get(part - 1),
        Decl::Structure { members, .. } => members.as_slice().get(part),
    }
}
