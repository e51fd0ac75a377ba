//! Where the elements of a variable lie beside each other.
ghost use Rattle.std.specs.Prelude.{◌≡◌, ◌≢◌, ◌+◌, ◌≤◌, Some, slice_get};
ghost use Rattle.nc_model.specs.Kind.{size_of};
ghost use Rattle.nc_model.specs.Layout.{shape_of, offset_of, end_of, IsIndex};
ghost use Rattle.nc_layout.specs.Meaning.{AreApart};

use nc_model::{Header, NcVar};

/// No element of a variable ends past the end of its last element.
#[tactic(auto, using(crate::proofs::EndLemmas::ends))]
pub fn last_element_ends_last(header: &Header, var: &NcVar, index: &[u64])
    requires { IsIndex (shape_of header.now var.now) index.now }
    ensures { offset_of header.now var.now index.now + size_of var.now.kind
        ≤ end_of header.now var.now }
{}

/// No two elements of a variable share a byte.
#[tactic(auto, using(crate::proofs::ApartLaws::aparts))]
pub fn elements_lie_apart(header: &Header, number: u32, var: &NcVar, index: &[u64], other: &[u64])
    requires there { slice_get header.now.vars number ≡ Some var.now }
    requires first { IsIndex (shape_of header.now var.now) index.now }
    requires second { IsIndex (shape_of header.now var.now) other.now }
    ensures { index.now ≢ other.now → AreApart (size_of var.now.kind)
        (offset_of header.now var.now index.now) (offset_of header.now var.now other.now) }
{}
