//! Which variables a prototype keeps.
ghost use Rattle.std.specs.Prelude.{◌≡◌};
ghost use Rattle.nc_model.specs.declared.header.Header.{Header as HeaderValue};
ghost use Rattle.fm_model.specs.Prototype.{is_bounds, is_char_per_time, is_kept};
ghost use Rattle.fm_proto.specs.Kept.{is_named_as, IsReferenceOf};

use fm_file::{dim_of_axis, has_text, is_char};
use nc_model::NcVar;

#[tactic(auto, unfolding(fm_model::specs::Prototype::is_char_per_time))]
fn is_char_per_time(axis: &NcVar, var: &NcVar) -> bool
    ensures { result ≡ is_char_per_time axis.now var.now }
{
    is_char(var.kind) && var.dims.as_slice() == [dim_of_axis(axis)].as_slice()
}

// Whether a variable is that of the bounds of the axis's times.
#[tactic(auto, unfolding(fm_model::specs::Prototype::is_bounds))]
fn is_bounds(axis: &NcVar, var: &NcVar) -> bool
    ensures { result ≡ is_bounds axis.now var.now }
{
    let attrs = axis.attrs.as_slice();
    let name = var.name.as_slice();
    has_text(attrs, b"bounds".as_slice(), name) || has_text(attrs, b"climatology".as_slice(), name)
}

fn is_named_as(reference: Option<&NcVar>, var: &NcVar) -> bool
    ensures { result ≡ is_named_as reference.entry var.now }
{
    match reference {
        None => false,
        Some(reference) => reference.name.as_slice() == var.name.as_slice(),
    }
}

// Whether the views show a variable, with the variable of the run's time at hand.
#[tactic(auto, unfolding(fm_model::specs::Prototype::is_reference))]
pub(crate) fn is_shown(reference: Option<&NcVar>, axis: &NcVar, var: &NcVar) -> bool
    ensures { (header : HeaderValue)
        → IsReferenceOf header reference.entry
        → result ≡ is_kept header axis.now var.now }
{
    var.name.as_slice() == axis.name.as_slice()
        || !(is_named_as(reference, var) || is_char_per_time(axis, var) || is_bounds(axis, var))
}
