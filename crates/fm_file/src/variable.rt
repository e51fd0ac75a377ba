//! What the variables of a file are.
ghost use Rattle.std.specs.Prelude.{◌≡◌, ◌<◌, MatchOption, None, Some, find, length, slice_get};
ghost use Rattle.fm_file.specs.Named.{has_name};
ghost use Rattle.fm_model.specs.Variable as spec;

use crate::attribute::{has_text, is_char};
use nc_model::{Dim, Header, Kind, NcVar};

// Whether the dimension of this number has this name.
#[tactic(auto, unfolding(fm_model::specs::Variable::is_named))]
pub(crate) fn is_named(dims: &[Dim], name: &[u8], id: u32) -> bool
    ensures { result ≡ spec.is_named dims.now name.now id }
{
    dims.get(id as usize)
        .is_some_and(|dim| dim.name.as_slice() == name)
}

/// Whether a variable of this name, kind and dimensions is a coordinate variable: its one dimension has its name, and
/// it isn't of characters.
#[tactic(auto, unfolding(fm_model::specs::Variable::is_coordinate))]
pub fn is_coordinate(dims: &[Dim], name: &[u8], kind: Kind, ids: &[u32]) -> bool
    ensures { result ≡ spec.is_coordinate dims.now name.now kind ids.now }
{
    match ids {
        [id] => is_named(dims, name, *id) && !is_char(kind),
        _ => false,
    }
}

#[tactic(auto, unfolding(fm_model::specs::Variable::has_standard_name))]
fn has_standard_name(text: &[u8], var: &NcVar) -> bool
    ensures { result ≡ spec.has_standard_name text.now var.now }
{
    has_text(var.attrs.as_slice(), b"standard_name".as_slice(), text)
}

// Whether a variable is a time axis: a coordinate variable with the name or the standard name `time`.
#[tactic(auto, unfolding(fm_model::specs::Variable::is_axis))]
pub(crate) fn is_axis(header: &Header, var: &NcVar) -> bool
    ensures { result ≡ spec.is_axis header.now var.now }
{
    is_coordinate(
        header.dims.as_slice(),
        var.name.as_slice(),
        var.kind,
        var.dims.as_slice(),
    ) && (var.name.as_slice() == b"time".as_slice() || has_standard_name(b"time".as_slice(), var))
}

/// The axis of a prototype: the first time axis.
#[tactic(auto, unfolding(fm_model::specs::Variable::axis_of))]
pub fn axis_of(header: &Header) -> Option<&NcVar>
    ensures { MatchOption result (spec.axis_of header.now ≡ None) (λ var. spec.axis_of header.now ≡ Some var.now) }
{
    for var in header.vars.as_slice() {
        if is_axis(header, var) {
            return Some(var);
        }
    }
    None
}

/// The number of an axis's dimension.
pub fn dim_of_axis(axis: &NcVar) -> u32
    ensures { result ≡ spec.dim_of_axis axis.now }
{
    match axis.dims.as_slice().first() {
        Some(id) => *id,
        None => 0,
    }
}

/// Whether a variable lies along the dimension of this number.
#[tactic(auto, unfolding(fm_model::specs::Variable::lies_along))]
pub fn lies_along(id: u32, ids: &[u32]) -> bool
    ensures { result ≡ spec.lies_along id ids.now }
{
    ids.iter().any(|other| *other == id)
}

/// Whether the dimension of this number stands first, and only there.
#[tactic(auto, unfolding(fm_model::specs::Variable::stands_first_alone))]
pub fn stands_first_alone(id: u32, ids: &[u32]) -> bool
    ensures { result ≡ spec.stands_first_alone id ids.now }
{
    match ids {
        [] => false,
        [first, others @ ..] => *first == id && !lies_along(id, others),
    }
}

// The number of the first variable with this standard name.
fn first_with_standard_name(vars: &[NcVar], text: &[u8]) -> Option<usize>
    ensures { MatchOption result
        (find (spec.has_standard_name text.now) vars.now ≡ None)
        (λ number. (number < length vars.now)
        × (find (spec.has_standard_name text.now) vars.now ≡ slice_get vars.now number)) }
{
    for (number, var) in vars.iter().enumerate() {
        if has_standard_name(text, var) {
            return Some(number);
        }
    }
    None
}

/// The number of the variable of the run's time: the first with the standard name of a reference time.
#[tactic(auto, unfolding(fm_model::specs::Variable::reference_of))]
pub fn reference_number(header: &Header) -> Option<usize>
    ensures { MatchOption result
        (spec.reference_of header.now ≡ None)
        (λ number. (number < length header.now.vars)
        × (spec.reference_of header.now ≡ slice_get header.now.vars number)) }
{
    first_with_standard_name(
        header.vars.as_slice(),
        b"forecast_reference_time".as_slice(),
    )
}

/// The variable of the run's time: the first with the standard name of a reference time.
pub fn reference_of(header: &Header) -> Option<&NcVar>
    ensures { MatchOption result
        (spec.reference_of header.now ≡ None)
        (λ var. spec.reference_of header.now ≡ Some var.now) }
{
    match reference_number(header) {
        Some(number) => Some(&header.vars.as_slice()[number]),
        None => None,
    }
}

fn has_name(name: &[u8], var: &NcVar) -> bool
    ensures { result ≡ has_name name.now var.now }
{
    var.name.as_slice() == name
}

// The number of the first variable of this name.
fn first_named(vars: &[NcVar], name: &[u8]) -> Option<usize>
    ensures { MatchOption result
        (find (has_name name.now) vars.now ≡ None)
        (λ number. (number < length vars.now)
        × (find (has_name name.now) vars.now ≡ slice_get vars.now number)) }
{
    for (number, var) in vars.iter().enumerate() {
        if has_name(name, var) {
            return Some(number);
        }
    }
    None
}

/// The number of the first variable of this name.
#[tactic(auto, unfolding(fm_model::specs::Variable::var_named))]
pub fn var_number(header: &Header, name: &[u8]) -> Option<usize>
    ensures { MatchOption result
        (spec.var_named header.now name.now ≡ None)
        (λ number. (number < length header.now.vars)
        × (spec.var_named header.now name.now ≡ slice_get header.now.vars number)) }
{
    first_named(header.vars.as_slice(), name)
}
