//! Which variable is a part of a declaration, and which slot a variable has.
ghost use Rattle.std.specs.Prelude.{◌≡◌, MatchOption, None, Some, slice_get, slice_index};
ghost use Rattle.fm_dataset.specs.Kept.{HasCoordinates};
ghost use Rattle.fm_dataset.specs.Values as spec;
ghost use Rattle.fm_model.specs.Prototype.{IsSound};

use crate::array::array_dims;
use fm_model::{Proto, ProtoVar};

// The variable of a number.
pub(crate) fn var_at(vars: &[ProtoVar], number: usize) -> Option<&ProtoVar>
    ensures { MatchOption result (slice_get vars.now number ≡ None)
        (λ var. slice_get vars.now number ≡ Some var.now) }
{
    vars.get(number)
}

// The number of a dimension at an index.
fn dim_of(ids: &[u32], index: usize) -> Option<u32>
    ensures { result ≡ slice_get ids.now index }
{
    ids.get(index).copied()
}

// The number of the variable that is a part of a declaration, or one past the last where there is none.
#[tactic(auto, unfolding(crate::specs::Values::var_of_part))]
pub(crate) fn number_of_part(proto: &Proto, coordinates: &[usize], decl: u32, part: u32) -> usize
    requires sound { IsSound proto.now }
    requires coordinates { HasCoordinates proto.now coordinates.now }
    ensures { slice_get proto.now.vars result ≡ spec.var_of_part proto.now decl part }
{
    let vars = proto.vars.as_slice();
    if part == 0 {
        return decl as usize;
    }
    match var_at(vars, decl as usize) {
        None => vars.len(),
        Some(var) => match dim_of(array_dims(var), part as usize - 1) {
            None => vars.len(),
            Some(id) => coordinates[id as usize],
        },
    }
}

// The number at an index, or 0 past the last.
pub(crate) fn number_at(numbers: &[usize], index: usize) -> usize
    ensures { result ≡ slice_index numbers.now index }
{
    match numbers.get(index) {
        None => 0,
        Some(number) => *number,
    }
}
