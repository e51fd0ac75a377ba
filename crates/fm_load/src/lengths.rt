//! Lengths of dimensions, of a file and of a prototype.
ghost use Rattle.std.specs.Prelude.{◌≡◌, ◌==◌, drop, map, slice_get};
ghost use Rattle.std.specs.Option.{option_map_or};
ghost use Rattle.nc_model.specs.Layout.{product, size_at};
ghost use Rattle.nc_model.specs.declared.header.Dim.{Dim as DimValue};
ghost use Rattle.fm_model.specs.LoadVars.{lengths_of};
ghost use Rattle.fm_model.specs.Variable.{are_same};

use fm_model::Proto;
use nc_layout::size_at;
use nc_model::Header;

// Whether a variable over these dimensions has exactly one element.
#[tactic(auto, using(crate::proofs::LengthLemmas::ones))]
pub(crate) fn has_one_element(header: &Header, ids: &[u32]) -> bool
    ensures { result ≡ (product (map (size_at header.now) ids.now) == 1) }
{
    for id in ids {
        if size_at(header, *id) != 1 {
            return false;
        }
    }
    true
}

// The length of the prototype's dimension of this number.
fn size_in_proto(proto: &Proto, id: u32) -> u64
    ensures { result ≡ option_map_or (λ (dim : DimValue). dim.size) (slice_get proto.now.dims id) 0 }
{
    match proto.dims.as_slice().get(id as usize) {
        Some(dim) => dim.size,
        None => 0,
    }
}

// Whether dimensions of the prototype and as many of the file have the same lengths, one by one.
pub(crate) fn same_lengths(proto: &Proto, wanted: &[u32], header: &Header, ids: &[u32]) -> bool
    ensures { result ≡ are_same (lengths_of proto.now wanted.now) (map (size_at header.now) ids.now) }
{
    if wanted.len() != ids.len() {
        return false;
    }
    for (index, id) in ids.iter().enumerate() {
        if size_in_proto(proto, wanted[index]) != size_at(header, *id) {
            return false;
        }
    }
    true
}

// The numbers of dimensions but for the first.
pub(crate) fn others(ids: &[u32]) -> &[u32]
    ensures { result.now ≡ drop 1 ids.now }
{
    match ids {
        [] => ids,
        [_, others @ ..] => others,
    }
}
