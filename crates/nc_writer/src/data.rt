//! The data of variables, read where it stands.
ghost use Rattle.std.specs.Prelude.{◌≡◌, ◌≢◌, ◌^◌, ◌<◌, [], All, IsTrue, drop, length};
ghost use Rattle.std.specs.List.{sum_by};
ghost use Rattle.dap_model.specs.declared.declaration.DapKind.{DapKind as Kind};
ghost use Rattle.dap_xdr.specs.Datasets.{content_of};
ghost use Rattle.dap_number.specs.Overlay.{IsPut};
ghost use Rattle.nc_writer.specs.Data as spec;
ghost use Rattle.nc_writer.specs.Facts.{IsVariableOf};
ghost use Rattle.nc_writer.specs.File.{all_data};

use crate::text::MAX_RANK;
use crate::values::{put_values, value_len};
use crate::variable::Variable;
use dap_model::DapKind;
use dap_number::put_zeros;
use dap_slab::slab_len;
use dap_xdr::xdr_piece;
use fm_dataset::Dataset;

// How many bytes the values of a variable take.
#[tactic(auto, using(crate::proofs::LenLemmas::slabs))]
fn values_len(source: &Dataset, variable: &Variable) -> u128
    requires { IsVariableOf source.now variable.now }
    ensures exact { result ≡ spec.values_len variable.now }
    ensures small { result < 2 ^ 97 }
{
    let width = value_len(variable.kind, variable.width);
    slab_len(variable.sent.slabs()) * u128::from(width)
}

// How many bytes the data of a variable takes.
#[tactic(auto, unfolding(crate::specs::Data::data_len))]
pub(crate) fn data_len(source: &Dataset, variable: &Variable) -> u128
    requires { IsVariableOf source.now variable.now }
    ensures exact { result ≡ spec.data_len variable.now }
    ensures small { result < 2 ^ 98 }
{
    (values_len(source, variable) + 3) / 4 * 4
}

// How many bytes the data of all variables takes.
pub(crate) fn all_len(source: &Dataset, variables: &[Variable]) -> u128
    requires each { All (IsVariableOf source.now) variables.now }
    requires few { length variables.now < 2 ^ 28 }
    ensures exact { result ≡ sum_by spec.data_len variables.now }
    ensures small { result < 2 ^ 126 }
{
    let mut len: u128 = 0;
    for variable in variables {
        len += data_len(source, variable);
    }
    len
}

// Writes the data of a variable from an offset on, as many bytes as fit: the values that stand together in a file at
// once, the others one by one.
#[tactic(auto, using(crate::proofs::LenLemmas::slabs))]
fn put_each(source: &Dataset, variable: &Variable, from: u64, out: &mut [u8]) -> usize
    requires variable { IsVariableOf source.now variable.now }
    requires small { spec.values_len variable.now < 2 ^ 64 }
    ensures { IsPut (drop from (spec.data_bytes (content_of source.now) variable.now)) out.old out.new result }
{
    let mut room = [0; MAX_RANK];
    let (index, _) = room.split_at_mut(variable.sent.slabs().len());
    let len = values_len(source, variable) as u64;
    let count = put_values(source, variable, from, out, index);
    let (_, rest) = out.split_at_mut(count);
    count + put_zeros(len, from.saturating_sub(len), rest)
}

// Writes the data of a variable of an array whose numbers stand in a file as they are sent: XDR has two counts before
// them.
fn put_sent(source: &Dataset, variable: &Variable, from: u64, out: &mut [u8]) -> usize
    requires variable { IsVariableOf source.now variable.now }
    requires number { variable.now.kind ≢ Kind.Text }
    requires same { variable.now.kind ≢ Kind.Int16 }
    requires many { variable.now.sent.slabs ≢ [] }
    requires small { spec.values_len variable.now < 2 ^ 63 }
    requires from { from < 2 ^ 63 }
    ensures { IsPut (drop from (spec.data_bytes (content_of source.now) variable.now)) out.old out.new result }
{
    xdr_piece(source, &variable.sent, from + 8, out)
}

// Whether XDR has the values of a variable as a file has them, behind two counts: those of an array of numbers, but of
// two bytes.
fn is_sent_alike(variable: &Variable) -> bool
    ensures number { IsTrue result → variable.now.kind ≢ Kind.Text }
    ensures same { IsTrue result → variable.now.kind ≢ Kind.Int16 }
    ensures many { IsTrue result → variable.now.sent.slabs ≢ [] }
{
    if variable.sent.slabs.get().is_empty() {
        return false;
    }
    match variable.kind {
        DapKind::Text | DapKind::Int16 => false,
        _ => true,
    }
}

// Writes the data of a variable from an offset on, as many bytes as fit.
fn put_variable(source: &Dataset, variable: &Variable, from: u64, out: &mut [u8]) -> usize
    requires variable { IsVariableOf source.now variable.now }
    requires small { spec.values_len variable.now < 2 ^ 63 }
    requires from { from < 2 ^ 63 }
    ensures { IsPut (drop from (spec.data_bytes (content_of source.now) variable.now)) out.old out.new result }
{
    if is_sent_alike(variable) {
        return put_sent(source, variable, from, out);
    }
    put_each(source, variable, from, out)
}

// How many bytes the data of a variable takes, where that is fewer than 2^64.
pub(crate) fn short_len(source: &Dataset, variable: &Variable) -> u64
    requires variable { IsVariableOf source.now variable.now }
    requires small { spec.data_len variable.now < 2 ^ 64 }
    ensures { result ≡ spec.data_len variable.now }
{
    data_len(source, variable) as u64
}

// Writes the data of all variables from an offset on, as many bytes as fit.
pub(crate) fn put_all(source: &Dataset, variables: &[Variable], from: u64, out: &mut [u8]) -> usize
    requires each { All (IsVariableOf source.now) variables.now }
    requires small { length (all_data source.now variables.now) < 2 ^ 63 }
    requires from { from < 2 ^ 63 }
    ensures { IsPut (drop from (all_data source.now variables.now)) out.old out.new result }
{
    let mut filled = 0;
    let mut left = from;
    let mut at = 0;
    while at < variables.len() && filled < out.len() {
        let variable = &variables[at];
        let len = short_len(source, variable);
        let (_, rest) = out.split_at_mut(filled);
        filled += put_variable(source, variable, left, rest);
        left = left.saturating_sub(len);
        at += 1;
    }
    filled
}
