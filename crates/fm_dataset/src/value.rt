//! The elements and the texts of a variable.
ghost use Rattle.std.specs.Prelude.{◌≡◌, ◌*◌, ◌≤◌, length, map, min};
ghost use Rattle.nc_model.specs.Kind.{size_of};
ghost use Rattle.nc_model.specs.Layout.{product};
ghost use Rattle.fm_dataset.specs.Kept.{length_at, HasCharacters, HasElement};
ghost use Rattle.fm_dataset.specs.Values as spec;

use crate::block::{block_of, pieces_of};
use crate::index::{count_in, length_at, rank, row_dims, row_index};
use crate::zeros::without_eights;
use fm_file::trimmed;
use fm_model::{Proto, ProtoVar};
use fm_rows::Rows;

// The element at an index list.
pub(crate) fn element_of<'a>(
    proto: &Proto,
    rows: &'a Rows,
    var: &'a ProtoVar,
    number: usize,
    index: &[u64],
) -> &'a [u8]
    requires { HasElement proto.now rows.now var.now number index.now }
    ensures value { result.now ≡ spec.element_of proto.now rows.now var.now index.now }
    ensures len { length result.now ≡ size_of var.now.kind }
{
    let block = block_of(proto, rows, var, number, index);
    let most = block.bytes.len() as u64;
    let rank = rank(proto, row_dims(var), row_index(var, index), most);
    pieces_of(block, u64::from(var.kind.size()), rank, 1)
}

// The elements that follow an index list in its row, itself the first: at most `most`.
pub(crate) fn raw_of<'a>(
    proto: &Proto,
    rows: &'a Rows,
    var: &'a ProtoVar,
    number: usize,
    index: &[u64],
    most: u64,
) -> &'a [u8]
    requires { HasElement proto.now rows.now var.now number index.now }
    ensures value { result.now ≡ spec.var_raw proto.now rows.now var.now index.now most }
    ensures len { length result.now
        ≡ size_of var.now.kind * min most (spec.left_in_row proto.now var.now index.now) }
{
    let block = block_of(proto, rows, var, number, index);
    let bytes = block.bytes.len() as u64;
    let ids = row_dims(var);
    let first = rank(proto, ids, row_index(var, index), bytes);
    let left = count_in(proto, ids, bytes) - first;
    pieces_of(block, u64::from(var.kind.size()), first, most.min(left))
}

// How many characters a text has: the length of the last dimension, where one is left.
#[tactic(auto, using(crate::proofs::CountLemmas::text_lengths))]
fn text_len(proto: &Proto, ids: &[u32]) -> u64
    requires { length ids.now ≤ 1 }
    ensures { result ≡ product (map (length_at proto.now) ids.now) }
{
    match ids {
        [] => 1,
        [id, ..] => length_at(proto, *id),
    }
}

// The characters at an index list.
fn characters<'a>(
    proto: &Proto,
    rows: &'a Rows,
    var: &'a ProtoVar,
    number: usize,
    index: &[u64],
) -> &'a [u8]
    requires { HasCharacters proto.now rows.now var.now number index.now }
    ensures { result.now ≡ spec.characters proto.now rows.now var.now index.now }
{
    let block = block_of(proto, rows, var, number, index);
    let bytes = block.bytes.len() as u64;
    let within = row_index(var, index);
    let (before, last) = row_dims(var).split_at(within.len());
    let len = text_len(proto, last);
    if len == 0 {
        return block.bytes.split_at(0).0;
    }
    let first = rank(proto, before, within, bytes);
    pieces_of(block, len, first, 1)
}

// The text at an index list.
pub(crate) fn text_of<'a>(
    proto: &Proto,
    rows: &'a Rows,
    var: &'a ProtoVar,
    number: usize,
    index: &[u64],
) -> &'a [u8]
    requires { HasCharacters proto.now rows.now var.now number index.now }
    ensures { result.now ≡ spec.var_text proto.now rows.now var.now index.now }
{
    trimmed(without_eights(characters(proto, rows, var, number, index)))
}
