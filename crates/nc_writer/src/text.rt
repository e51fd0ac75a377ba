//! How many characters the texts of a variable have in a file.
ghost use Rattle.std.specs.Prelude.{◌≡◌, IfOk, length};
ghost use Rattle.dap_model.specs.Box.{box_len};
ghost use Rattle.dap_model.specs.declared.declaration.DapKind.{DapKind as Kind};
ghost use Rattle.dap_xdr.specs.Datasets.{content_of};
ghost use Rattle.nc_writer.specs.Facts.{IsSentPart};
ghost use Rattle.nc_writer.specs.Variables as spec;

use dap_model::{Array, DapKind, Sent};
use dap_slab::{put_index, slab_len};
use fm_base::{Bytes, NoMemory};
use fm_dataset::Dataset;
use std::alloc::Global;

// The greatest rank of an array.
pub(crate) const MAX_RANK: usize = 1025;

// Whether values are texts.
#[tactic(auto, unfolding(crate::specs::Variables::is_text))]
pub(crate) fn is_text(kind: DapKind) -> bool
    ensures { result ≡ spec.is_text kind }
{
    match kind {
        DapKind::Text => true,
        DapKind::Byte | DapKind::Int16 | DapKind::Int32 | DapKind::Float32 | DapKind::Float64 =>
            false,
    }
}

// The name of the dimension of the characters of a text, by that of the text's variable.
#[tactic(auto, unfolding(crate::specs::Variables::characters_name))]
pub(crate) fn characters_name(alloc: Global, name: &[u8]) -> Result<Bytes, NoMemory>
    ensures { IfOk result (λ characters. characters ≡ spec.characters_name name.now) }
{
    let mut characters = Bytes::copy_of(alloc, name)?;
    characters.append(b"_strlen")?;
    Ok(characters)
}

// How many characters the longest of the `count` texts of a part has, and 1 where each is empty. The buffer `index` has
// room for an index list.
#[tactic(auto, using(crate::proofs::TextLemmas::parts))]
fn longest_of(source: &Dataset, sent: &Sent, array: &Array, count: u64, index: &mut [u64]) -> u64
    requires part { IsSentPart source.now sent.now array.now }
    requires text { array.now.kind ≡ Kind.Text }
    requires count { count ≡ box_len sent.now.slabs }
    requires room { length index.old ≡ length sent.now.slabs }
    ensures { result ≡ spec.longest (spec.texts_sent (content_of source.now) sent.now) }
{
    let mut most: u64 = 1;
    for element in 0..count {
        put_index(sent.slabs(), count, element, index);
        let text = source.text(sent.decl, sent.part, index);
        most = most.max(text.len() as u64);
    }
    most
}

// How many characters the longest text of a part has.
#[tactic(auto, using(crate::proofs::TextLemmas::parts))]
fn longest(source: &Dataset, sent: &Sent, array: &Array) -> u64
    requires part { IsSentPart source.now sent.now array.now }
    requires text { array.now.kind ≡ Kind.Text }
    ensures { result ≡ spec.longest (spec.texts_sent (content_of source.now) sent.now) }
{
    let slabs = sent.slabs();
    let mut room = [0; MAX_RANK];
    let (index, _) = room.split_at_mut(slabs.len());
    longest_of(source, sent, array, slab_len(slabs) as u64, index)
}

// How many characters a text of a part has in the file; 1 for numbers.
#[tactic(auto, unfolding(crate::specs::Variables::width_of, crate::specs::Variables::is_text))]
pub(crate) fn width_of(source: &Dataset, sent: &Sent, array: &Array) -> u64
    requires { IsSentPart source.now sent.now array.now }
    ensures { result ≡ spec.width_of (content_of source.now) array.now.kind sent.now }
{
    match array.kind {
        DapKind::Text => longest(source, sent, array),
        DapKind::Byte | DapKind::Int16 | DapKind::Int32 | DapKind::Float32 | DapKind::Float64 => 1,
    }
}
