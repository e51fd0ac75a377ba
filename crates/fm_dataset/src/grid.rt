//! Which variables are Grids, and the maps that they have.
ghost use Rattle.std.specs.Prelude.{◌≡◌};
ghost use Rattle.fm_dataset.specs.Declarations as spec;

use crate::array::array_dims;
use fm_file::{is_coordinate, lies_along};
use fm_model::{Proto, ProtoVar};

// Whether a variable is a coordinate variable.
pub(crate) fn is_coordinate_var(proto: &Proto, var: &ProtoVar) -> bool
    ensures { result ≡ spec.is_coordinate_var proto.now var.now }
{
    is_coordinate(
        proto.dims.as_slice(),
        var.name.as_slice(),
        var.kind,
        var.dims.as_slice(),
    )
}

// Whether a number stands twice.
#[tactic(auto, using(crate::proofs::FindLemmas::repetitions))]
fn repeats(ids: &[u32]) -> bool
    ensures { result ≡ spec.repeats ids.now }
{
    for (index, id) in ids.iter().enumerate() {
        let (_, others) = ids.split_at(index + 1);
        if lies_along(*id, others) {
            return true;
        }
    }
    false
}

// Whether a variable is a Grid where each dimension of its array has a coordinate variable: its array has a dimension,
// no dimension stands twice, and it is no coordinate variable itself.
pub(crate) fn may_be_grid(proto: &Proto, var: &ProtoVar) -> bool
    ensures { result ≡ spec.may_be_grid proto.now var.now }
{
    let ids = array_dims(var);
    !ids.is_empty() && !is_coordinate_var(proto, var) && !repeats(ids)
}
