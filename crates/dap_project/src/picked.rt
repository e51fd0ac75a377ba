//! What a path picks of a declaration.
ghost use Rattle.std.specs.Prelude.{◌≡◌, ◌≤◌, length, MatchOption, None};
ghost use Rattle.std.specs.List.{position_or_len};
ghost use Rattle.std.specs.Str.{bytes_eq};
ghost use Rattle.dap_model.specs.Picking as spec;
ghost use Rattle.dap_project.specs.Buckets.{indices_for};
ghost use Rattle.dap_project.specs.Checks.{IsNamed};
ghost use Rattle.dap_project.specs.Notes.{picked_of};

use dap_model::{Array, Decl};
use fm_base::Bytes;

// What a path picks of a declaration: nothing, all of it, or one part.
#[derive(Clone, Copy)]
pub(crate) enum Choice {
    Nothing,
    Every,
    Only(usize),
}

// The index of the first declaration that a path names, or names a part of, and what the path picks of it.
#[derive(Clone, Copy)]
pub(crate) struct Named {
    pub(crate) at: usize,
    pub(crate) choice: Choice,
}

// The name of a declaration.
pub(crate) fn name_of(decl: &Decl) -> &[u8]
    ensures { result.now ≡ spec.name_of decl.now }
{
    match decl {
        Decl::Plain(array) => array.name.as_slice(),
        Decl::Grid { name, .. } => name.as_slice(),
        Decl::Structure { name, .. } => name.as_slice(),
    }
}

// The index of the first of some arrays that has a name, or how many there are.
fn first_named(name: &[u8], arrays: &[Array]) -> usize
    ensures index { result ≡ position_or_len (λ part. bytes_eq part.name name.now) arrays.now }
    ensures within { result ≤ length arrays.now }
{
    let mut left = arrays;
    let mut at = 0;
    while let [array, others @ ..] = left {
        if array.name.as_slice() == name {
            return at;
        }
        left = others;
        at += 1;
    }
    at
}

// The number of the first part of a name that a path may name below a declaration, or how many there are.
fn first_part(name: &[u8], decl: &Decl) -> usize
    ensures { result ≡ position_or_len (λ part. bytes_eq part.name name.now) (spec.named_parts decl.now) }
{
    match decl {
        Decl::Plain(_) => 0,
        Decl::Grid { array, maps, .. } => {
            let maps = maps.as_slice();
            if array.name.as_slice() == name {
                0
            } else {
                first_named(name, maps) + 1
            }
        }
        Decl::Structure { members, .. } => first_named(name, members.as_slice()),
    }
}

// How many parts a path may name below a declaration.
fn named_count(decl: &Decl) -> usize
    ensures { result ≡ length (spec.named_parts decl.now) }
{
    match decl {
        Decl::Plain(_) => 0,
        Decl::Grid { maps, .. } => maps.as_slice().len() + 1,
        Decl::Structure { members, .. } => members.len(),
    }
}

// The part of a name, if a path may name it.
#[tactic(auto, unfolding(dap_model::specs::Picking::picked_part))]
fn part_picked(decl: &Decl, name: &[u8]) -> Choice
    ensures { picked_of result ≡ spec.picked_part decl.now name.now }
{
    let part = first_part(name, decl);
    if part < named_count(decl) {
        Choice::Only(part)
    } else {
        Choice::Nothing
    }
}

// What a path picks of a declaration.
#[tactic(auto, unfolding(dap_model::specs::Picking::picked_by))]
pub(crate) fn picked_by(decl: &Decl, path: &[Bytes]) -> Choice
    ensures { picked_of result ≡ spec.picked_by decl.now path.now }
{
    match path {
        [name] if name_of(decl) == name.as_slice() => Choice::Every,
        [name, part] if name_of(decl) == name.as_slice() => part_picked(decl, part.as_slice()),
        _ => Choice::Nothing,
    }
}

// Whether something is picked.
pub(crate) fn is_picked(choice: Choice) -> bool
    ensures { result ≡ spec.is_picked (picked_of choice) }
{
    match choice {
        Choice::Nothing => false,
        Choice::Every | Choice::Only(_) => true,
    }
}

// Whether all is picked.
pub(crate) fn is_every(choice: Choice) -> bool
    ensures { result ≡ spec.is_every (picked_of choice) }
{
    match choice {
        Choice::Every => true,
        Choice::Nothing | Choice::Only(_) => false,
    }
}

// The first declaration that a path names, or names a part of. Its index is one of these.
pub(crate) fn index_named(decls: &[Decl], indices: &[usize], path: &[Bytes]) -> Option<Named>
    requires { indices.now ≡ indices_for decls.now path.now }
    ensures { MatchOption result (spec.decl_named decls.now path.now ≡ None)
        (IsNamed decls.now path.now) }
{
    for at in indices {
        let choice = picked_by(&decls[*at], path);
        if is_picked(choice) {
            return Some(Named { at: *at, choice });
        }
    }
    None
}
