//! What the header of a file says in the words of the CF Conventions: texts of attributes, coordinate variables, the
//! time axis and the variable of the run's time. Reading a prototype and loading a file both stand on it.
#![tactic(auto)]

mod attribute;
mod packing;
mod sound;
mod variable;

pub use attribute::{has_text, is_char, is_same_kind, text_of, trimmed};
pub use packing::have_same;
pub use sound::read_sound;
pub use variable::{
    axis_of, dim_of_axis, is_coordinate, lies_along, reference_number, reference_of,
    stands_first_alone, var_number,
};
