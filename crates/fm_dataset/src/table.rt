//! Where the coordinate variables and the slots of a prototype are, so that no value has to be searched for.
ghost use Rattle.std.specs.Prelude.{◌≡◌, ◌+◌, ◌<◌, ◌≤◌, ℕ, IfOk, IsNone, IfSome, None, Some, length, nat_eq, slice_get};
ghost use Rattle.fm_dataset.specs.Declarations.{coordinate_of, is_coordinate_of};
ghost use Rattle.fm_dataset.specs.Kept.{has_slot, slots_in, AreFirstOf, HasCoordinates, HasSlotNumbers};

use crate::grid::is_coordinate_var;
use fm_base::{List, NoMemory};
use fm_model::{Proto, ProtoVar};
use std::alloc::Global;

// The number of the dimension whose coordinate variable a variable is, or one past the last where it is of none.
#[tactic(auto, unfolding(crate::specs::Declarations::is_coordinate_of, fm_model::specs::Variable::is_coordinate))]
fn dim_of_coordinate(proto: &Proto, var: &ProtoVar) -> usize
    ensures { (id : ℕ) → id < length proto.now.dims → is_coordinate_of proto.now id var.now ≡ nat_eq result id }
{
    match var.dims.as_slice() {
        [only] if is_coordinate_var(proto, var) => *only as usize,
        _ => proto.dims.len(),
    }
}

// Notes the variable of a number as the coordinate variable of its dimension, where it is one, and none of those before
// it is.
#[tactic(auto, using(crate::proofs::FirstLemmas::firsts))]
fn note_coordinate(proto: &Proto, number: usize, var: &ProtoVar, numbers: &mut [usize])
    requires number { slice_get proto.now.vars number ≡ Some var.now }
    requires before { AreFirstOf proto.now number numbers.old }
    ensures { AreFirstOf proto.now (number + 1) numbers.new }
{
    let id = dim_of_coordinate(proto, var);
    if id < numbers.len() && numbers[id] >= proto.vars.len() {
        numbers[id] = number;
    }
}

// The numbers of the coordinate variables of all dimensions, found in one walk through the variables.
pub(crate) fn coordinate_numbers(alloc: Global, proto: &Proto) -> Result<List<usize>, NoMemory>
    ensures { IfOk result (HasCoordinates proto.now) }
{
    let items = vec![in alloc; proto.vars.len(); proto.dims.len()]?;
    let mut numbers = List { items };
    for (number, var) in proto.vars.as_slice().iter().enumerate() {
        note_coordinate(proto, number, var, numbers.items.as_mut_slice());
    }
    Ok(numbers)
}

// The coordinate variable of a dimension, where it has one.
pub(crate) fn coordinate_at<'a>(
    proto: &'a Proto,
    coordinates: &[usize],
    id: u32,
) -> Option<&'a ProtoVar>
    requires { HasCoordinates proto.now coordinates.now }
    ensures found { IfSome result (λ var. coordinate_of proto.now id ≡ Some var.now) }
    ensures none { IsNone result → coordinate_of proto.now id ≡ None }
{
    match coordinates.get(id as usize) {
        Some(number) => proto.vars.as_slice().get(*number),
        None => None,
    }
}

// Whether a variable has a slot in each file: it lies along the axis, and isn't the axis.
pub(crate) fn has_slot(proto: &Proto, var: &ProtoVar) -> bool
    ensures { result ≡ has_slot proto.now var.now }
{
    var.timed && var.name.as_slice() != proto.axis.as_slice()
}

// How many slots a variable has in each file.
fn slots_in(proto: &Proto, var: &ProtoVar) -> usize
    ensures value { result ≡ slots_in proto.now var.now }
    ensures few { result ≤ 1 }
{
    if has_slot(proto, var) { 1 } else { 0 }
}

// The numbers of the slots of all variables.
pub(crate) fn slot_numbers(alloc: Global, proto: &Proto) -> Result<List<usize>, NoMemory>
    ensures { IfOk result (HasSlotNumbers proto.now) }
{
    let mut numbers = List::new(alloc);
    let mut next = 0;
    for var in proto.vars.as_slice() {
        numbers.push(next)?;
        next += slots_in(proto, var);
    }
    Ok(numbers)
}
