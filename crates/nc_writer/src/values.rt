//! The values of a variable, as a file has them.
ghost use Rattle.std.specs.Prelude.{◌≡◌, ◌-◌, ◌<◌, ◌≤◌, drop, length, min};
ghost use Rattle.dap_model.specs.Box.{box_len};
ghost use Rattle.dap_model.specs.Xdr.{AreBitsOf};
ghost use Rattle.dap_xdr.specs.Datasets.{content_of};
ghost use Rattle.dap_number.specs.Overlay.{overlay, IsPut};
ghost use Rattle.dap_xdr.specs.Stretch.{stored_bytes};
ghost use Rattle.nc_writer.specs.Data as spec;
ghost use Rattle.nc_writer.specs.Facts.{HasValue, IsTurn, IsVariableOf};

use crate::variable::Variable;
use crate::zeros::put_fill;
use dap_model::DapKind;
use dap_number::put;
use dap_slab::{put_index, slab_len};
use dap_xdr::stretch;
use fm_dataset::Dataset;

// How many values are written at once, and how many bytes of them.
#[derive(Clone, Copy)]
pub(crate) struct Turn {
    pub values: u64,
    pub bytes: usize,
}

// How many bytes a value takes.
#[tactic(auto, unfolding(crate::specs::Data::value_len, crate::specs::Data::file_kind, crate::specs::Variables::is_text))]
pub(crate) fn value_len(kind: DapKind, width: u64) -> u64
    ensures { result ≡ spec.value_len kind width }
{
    match kind {
        DapKind::Text => width,
        DapKind::Byte => 1,
        DapKind::Int16 => 2,
        DapKind::Int32 | DapKind::Float32 => 4,
        DapKind::Float64 => 8,
    }
}

// Writes a number by its bits, as a file has it, from an offset on.
#[tactic(auto, unfolding(dap_xdr::specs::Stretch::stored_bytes, dap_model::specs::Xdr::bits_in))]
fn put_bits(kind: DapKind, bits: u64, from: u64, out: &mut [u8]) -> usize
    requires { AreBitsOf kind bits }
    ensures count { result ≡ min (length out.old) (length (stored_bytes kind bits) - from) }
    ensures bytes { out.new ≡ overlay (drop from (stored_bytes kind bits)) out.old }
{
    match kind {
        DapKind::Text => put(&[], from, out),
        DapKind::Byte => put(&[bits as u8], from, out),
        DapKind::Int16 => put(&(bits as u16).to_be_bytes(), from, out),
        DapKind::Int32 | DapKind::Float32 => put(&(bits as u32).to_be_bytes(), from, out),
        DapKind::Float64 => put(&bits.to_be_bytes(), from, out),
    }
}

// Writes a text in a field of this width from an offset on.
fn put_text(text: &[u8], width: u64, from: u64, out: &mut [u8]) -> usize
    ensures { IsPut (drop from (spec.filled width text.now)) out.old out.new result }
{
    let len = (text.len() as u64).min(width);
    let (shown, _) = text.split_at(len as usize);
    let count = put(shown, from, out);
    let (_, rest) = out.split_at_mut(count);
    count + put_fill(width - len, from.saturating_sub(len), rest)
}

// Writes the value at an index list from an offset on.
fn put_value(
    source: &Dataset,
    variable: &Variable,
    index: &[u64],
    from: u64,
    out: &mut [u8],
) -> usize
    requires { HasValue source.now variable.now index.now }
    ensures { IsPut (drop from (spec.value_at (content_of source.now) variable.now index.now)) out.old out.new
        result }
{
    let sent = &variable.sent;
    match variable.kind {
        DapKind::Text => put_text(
            source.text(sent.decl, sent.part, index),
            variable.width,
            from,
            out,
        ),
        kind => put_bits(kind, source.bits(sent.decl, sent.part, index), from, out),
    }
}

// Writes the values from an element on that stand together in a file, of whose bytes `passed` are passed over, as many
// bytes as fit: maybe none.
fn put_stretch(
    source: &Dataset,
    variable: &Variable,
    element: u64,
    passed: u64,
    out: &mut [u8],
) -> Turn
    requires variable { IsVariableOf source.now variable.now }
    requires element { element < box_len variable.now.sent.slabs }
    ensures some { 0 < result.values
        → IsTurn (content_of source.now) variable.now element passed result out.old out.new }
    ensures none { result.values ≡ 0 → out.new ≡ out.old }
    ensures fits { result.bytes ≤ length out.old }
{
    let numbers = stretch(source, &variable.sent, element);
    let width = value_len(variable.kind, variable.width);
    let values = numbers.len() as u64 / width;
    if values == 0 {
        return Turn { values, bytes: 0 };
    }
    let bytes = put(numbers, passed, out);
    Turn { values, bytes }
}

// Writes the value of an element, of whose bytes `passed` are passed over, as many bytes as fit. The buffer `index` has
// room for an index list.
#[tactic(auto, using(crate::proofs::LenLemmas::slabs))]
fn put_one(
    source: &Dataset,
    variable: &Variable,
    element: u64,
    passed: u64,
    out: &mut [u8],
    index: &mut [u64],
) -> Turn
    requires variable { IsVariableOf source.now variable.now }
    requires element { element < box_len variable.now.sent.slabs }
    requires room { length index.old ≡ length variable.now.sent.slabs }
    ensures turn { IsTurn (content_of source.now) variable.now element passed result out.old out.new }
    ensures fits { result.bytes ≤ length out.old }
    ensures room { length index.new ≡ length index.old }
{
    let slabs = variable.sent.slabs();
    let count = slab_len(slabs) as u64;
    put_index(slabs, count, element, index);
    let bytes = put_value(source, variable, index, passed, out);
    Turn { values: 1, bytes }
}

// Writes the values from an element on that stand together in a file, or one: of their bytes `passed` are passed over,
// and as many written as fit. The buffer `index` has room for an index list.
fn put_some(
    source: &Dataset,
    variable: &Variable,
    element: u64,
    passed: u64,
    out: &mut [u8],
    index: &mut [u64],
) -> Turn
    requires variable { IsVariableOf source.now variable.now }
    requires element { element < box_len variable.now.sent.slabs }
    requires room { length index.old ≡ length variable.now.sent.slabs }
    ensures turn { IsTurn (content_of source.now) variable.now element passed result out.old out.new }
    ensures fits { result.bytes ≤ length out.old }
    ensures room { length index.new ≡ length index.old }
{
    let turn = put_stretch(source, variable, element, passed, out);
    if turn.values > 0 {
        return turn;
    }
    put_one(source, variable, element, passed, out, index)
}

// Writes the values of a variable from an offset on, as many bytes as fit. The buffer `index` has room for an index
// list.
#[tactic(auto, using(crate::proofs::LenLemmas::slabs))]
pub(crate) fn put_values(
    source: &Dataset,
    variable: &Variable,
    from: u64,
    out: &mut [u8],
    index: &mut [u64],
) -> usize
    requires variable { IsVariableOf source.now variable.now }
    requires room { length index.old ≡ length variable.now.sent.slabs }
    ensures { IsPut (drop from (spec.values_of (content_of source.now) variable.now)) out.old out.new result }
{
    let width = value_len(variable.kind, variable.width);
    let count = slab_len(variable.sent.slabs()) as u64;
    let mut element = from / width;
    if element >= count {
        return 0;
    }
    let mut left = from % width;
    let mut filled = 0;
    while element < count && filled < out.len() {
        let (_, rest) = out.split_at_mut(filled);
        let turn = put_some(source, variable, element, left, rest, index);
        filled += turn.bytes;
        left = 0;
        element += turn.values;
    }
    filled
}
