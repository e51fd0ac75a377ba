//! The numbers that stand where a run has no value (NetCDF Users Guide, attribute conventions and fill values).
ghost use Rattle.std.specs.Prelude.{◌≡◌, ◌≢◌, ◌<◌, ◌^◌, IfSome, MatchOption, None, Some, codes};
ghost use Rattle.nc_model.specs.Kind.{size_of};
ghost use Rattle.dap_model.specs.declared.declaration.DapKind.{DapKind};
ghost use Rattle.dap_model.specs.Xdr.{AreBitsOf};
ghost use Rattle.fm_model.specs.Attribute.{attr_named};
ghost use Rattle.fm_dataset.specs.Declarations.{kind_in};
ghost use Rattle.fm_twod.specs.Fill as spec;

use fm_bits::pattern_at;
use fm_file::is_same_kind;
use fm_model::{Proto, ProtoVar};
use nc_model::{Attr, Kind};

// The bits of the fill value of a kind.
#[tactic(auto, unfolding(crate::specs::Fill::default_fill))]
fn default_fill(kind: Kind) -> u64
    ensures value { result ≡ spec.default_fill kind }
    ensures width { result < 256 ^ size_of kind }
{
    match kind {
        Kind::Byte => 0x81,
        Kind::Char => 0,
        Kind::Short => 0x8001,
        Kind::Int => 0x8000_0001,
        Kind::Float => 0x7cf0_0000,
        Kind::Double => 0x479e_0000_0000_0000,
    }
}

// The bits of an attribute that has exactly one number, and of this kind.
#[tactic(auto, using(crate::proofs::FillLemmas::patterns), unfolding(crate::specs::Fill::only_value))]
fn only_value(kind: Kind, attr: &Attr) -> Option<u64>
    ensures value { result ≡ spec.only_value kind attr.now }
    ensures width { IfSome result (λ bits. bits < 256 ^ size_of kind) }
{
    if !is_same_kind(attr.kind, kind) {
        return None;
    }
    match pattern_at(kind, attr.values.as_slice()) {
        None => None,
        Some(pattern) => Some(pattern.bits),
    }
}

// The attribute that says which number is missing.
fn filler(attrs: &[Attr]) -> Option<&Attr>
    ensures { MatchOption result
        (attr_named attrs.now (codes "_FillValue") ≡ None)
        (λ attr. attr_named attrs.now (codes "_FillValue") ≡ Some attr.now) }
{
    for attr in attrs {
        if attr.name.as_slice() == b"_FillValue".as_slice() {
            return Some(attr);
        }
    }
    None
}

// The bits of the number that the attribute of a variable gives.
fn given_fill(var: &ProtoVar) -> Option<u64>
    ensures value { result ≡ spec.given_fill var.now }
    ensures width { IfSome result (λ bits. bits < 256 ^ size_of var.now.kind) }
{
    match filler(var.attrs.as_slice()) {
        None => None,
        Some(attr) => only_value(var.kind, attr),
    }
}

// The bits of a variable's fill value.
#[tactic(auto, unfolding(crate::specs::Fill::fill_of))]
fn fill_of(var: &ProtoVar) -> u64
    ensures value { result ≡ spec.fill_of var.now }
    ensures width { result < 256 ^ size_of var.now.kind }
{
    match given_fill(var) {
        None => default_fill(var.kind),
        Some(bits) => bits,
    }
}

// The bits that a variable of numbers has where a run has no value.
#[tactic(auto, using(crate::proofs::FillLemmas::absent), unfolding(crate::specs::Fill::absent_bits))]
pub(crate) fn absent_bits(proto: &Proto, var: &ProtoVar) -> u64
    requires { kind_in proto.now var.now ≢ DapKind.Text }
    ensures value { result ≡ spec.absent_bits proto.now var.now }
    ensures width { AreBitsOf (kind_in proto.now var.now) result }
{
    if var.name.as_slice() == proto.axis.as_slice() {
        default_fill(Kind::Int)
    } else {
        fill_of(var)
    }
}
