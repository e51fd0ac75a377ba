//! The first variable or dimension that a step refuses.
ghost use Rattle.std.specs.Prelude.{◌≡◌, ◌≢◌, ◌++◌, ℕ, List, MatchOption, None, Some, find, map};
ghost use Rattle.fm_model.specs.Prototype.{has_taken_name, has_time_later, is_empty, is_plain_name, kept_vars, names_of};
ghost use Rattle.fm_proto.specs.Kept.{IsReferenceOf};
ghost use Rattle.fm_proto.specs.Searches.{dim_name, var_name, first_bad_name};

use crate::kept::is_shown;
use fm_base::is_name_byte;
use fm_file::{dim_of_axis, lies_along};
use nc_model::{Dim, Header, NcVar};

#[tactic(auto, unfolding(fm_model::specs::Variable::lies_along))]
fn has_time_later(axis: &NcVar, var: &NcVar) -> bool
    ensures { result ≡ has_time_later axis.now var.now }
{
    match var.dims.as_slice() {
        [] => false,
        [_first, others @ ..] => lies_along(dim_of_axis(axis), others),
    }
}

// The first variable that has the axis's dimension after its first.
pub(crate) fn first_misplaced<'a>(header: &'a Header, axis: &NcVar) -> Option<&'a NcVar>
    ensures { MatchOption result
        (find (has_time_later axis.now) header.now.vars ≡ None)
        (λ found. find (has_time_later axis.now) header.now.vars ≡ Some found.now) }
{
    for var in header.vars.as_slice() {
        if has_time_later(axis, var) {
            return Some(var);
        }
    }
    None
}

#[tactic(auto, unfolding(fm_model::specs::Prototype::is_plain_name))]
fn is_plain_name(name: &[u8]) -> bool
    ensures { result ≡ is_plain_name name.now }
{
    name.iter().all(|byte| is_name_byte(*byte))
}

fn first_bad_dim(dims: &[Dim]) -> Option<&[u8]>
    ensures { MatchOption result
        (first_bad_name (map dim_name dims.now) ≡ None)
        (λ found. first_bad_name (map dim_name dims.now) ≡ Some found.now) }
{
    for dim in dims {
        if !is_plain_name(dim.name.as_slice()) {
            return Some(dim.name.as_slice());
        }
    }
    None
}

fn first_bad_var(vars: &[NcVar]) -> Option<&[u8]>
    ensures { MatchOption result
        (first_bad_name (map var_name vars.now) ≡ None)
        (λ found. first_bad_name (map var_name vars.now) ≡ Some found.now) }
{
    for var in vars {
        if !is_plain_name(var.name.as_slice()) {
            return Some(var.name.as_slice());
        }
    }
    None
}

// The first name, of all dimensions and then of all variables, with another byte than letters, digits, `_` and `-`.
#[tactic(auto, using(crate::proofs::SearchLemmas::appended))]
pub(crate) fn first_bad_name(header: &Header) -> Option<&[u8]>
    ensures { MatchOption result
        (first_bad_name (names_of header.now) ≡ None)
        (λ found. first_bad_name (names_of header.now) ≡ Some found.now) }
{
    match first_bad_dim(header.dims.as_slice()) {
        Some(name) => Some(name),
        None => first_bad_var(header.vars.as_slice()),
    }
}

// What follows a front in a name.
fn after<'a>(front: &[u8], name: &'a [u8]) -> Option<&'a [u8]>
    ensures { MatchOption result
        ((rest : List ℕ) → name.now ≢ front.now ++ rest)
        (λ rest. name.now ≡ front.now ++ rest.now) }
{
    name.strip_prefix(front)
}

// Whether a variable has a name under which the views show the run or the offset of each row.
#[tactic(auto, using(crate::proofs::NameLemmas::fronts), unfolding(fm_model::specs::Prototype::run_name, fm_model::specs::Prototype::offset_name))]
fn has_taken_name(axis: &NcVar, var: &NcVar) -> bool
    ensures { result ≡ has_taken_name axis.now var.now }
{
    match after(axis.name.as_slice(), var.name.as_slice()) {
        Some(rest) => rest == b"_run".as_slice() || rest == b"_offset".as_slice(),
        None => false,
    }
}

// The first variable that the views show under one of these names.
#[tactic(auto, unfolding(fm_model::specs::Prototype::kept_vars))]
pub(crate) fn first_taken<'a>(
    header: &'a Header,
    reference: Option<&NcVar>,
    axis: &NcVar,
) -> Option<&'a NcVar>
    requires { IsReferenceOf header.now reference }
    ensures { MatchOption result
        (find (has_taken_name axis.now) (kept_vars header.now axis.now) ≡ None)
        (λ found. find (has_taken_name axis.now) (kept_vars header.now axis.now) ≡ Some found.now) }
{
    for var in header.vars.as_slice() {
        if is_shown(reference, axis, var) && has_taken_name(axis, var) {
            return Some(var);
        }
    }
    None
}

fn is_empty(header: &Header, axis: &NcVar, dim: &Dim) -> bool
    ensures { result ≡ is_empty header.now axis.now dim.now }
{
    dim.size == 0 && header.numrecs == 0 && dim.name.as_slice() != axis.name.as_slice()
}

// The first dimension other than the axis's that has no length.
pub(crate) fn first_empty<'a>(header: &'a Header, axis: &NcVar) -> Option<&'a Dim>
    ensures { MatchOption result
        (find (is_empty header.now axis.now) header.now.dims ≡ None)
        (λ found. find (is_empty header.now axis.now) header.now.dims ≡ Some found.now) }
{
    for dim in header.dims.as_slice() {
        if is_empty(header, axis, dim) {
            return Some(dim);
        }
    }
    None
}
