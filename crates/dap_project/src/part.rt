//! The parts of a declaration.
ghost use Rattle.std.specs.Prelude.{◌≡◌, length};
ghost use Rattle.dap_model.specs.Picking as spec;
ghost use Rattle.dap_project.specs.Notes.{picked_of};

use crate::picked::Choice;
use dap_model::Decl;
use dap_slab::part_of;
use nc_model::Dim;

// The dimensions of a part, by its number; none past the last.
pub(crate) fn part_dims(decl: &Decl, part: usize) -> &[Dim]
    ensures { result.now ≡ spec.part_dims decl.now part }
{
    match part_of(decl, part) {
        Some(array) => array.dims.as_slice(),
        None => &[],
    }
}

// The dimensions of a declaration.
fn dims_of(decl: &Decl) -> &[Dim]
    ensures { result.now ≡ spec.dims_of decl.now }
{
    match decl {
        Decl::Plain(array) => array.dims.as_slice(),
        Decl::Grid { array, .. } => array.dims.as_slice(),
        Decl::Structure { .. } => &[],
    }
}

// The dimensions of what is picked.
pub(crate) fn picked_dims(decl: &Decl, choice: Choice) -> &[Dim]
    ensures { result.now ≡ spec.picked_dims decl.now (picked_of choice) }
{
    match choice {
        Choice::Nothing => &[],
        Choice::Every => dims_of(decl),
        Choice::Only(part) => part_dims(decl, part),
    }
}

// How many parts a declaration has.
pub(crate) fn part_count(decl: &Decl) -> usize
    ensures { result ≡ length (spec.parts_of decl.now) }
{
    match decl {
        Decl::Plain(_) => 1,
        Decl::Grid { maps, .. } => maps.as_slice().len() + 1,
        Decl::Structure { members, .. } => members.len(),
    }
}
