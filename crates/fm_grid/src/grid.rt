//! The first byte at which two lists of bytes differ.
ghost use Rattle.std.specs.Prelude.{◌≡◌, nat_eq, slice_index};
ghost use Rattle.std.specs.List.{common_prefix_len};
ghost use Rattle.fm_base.specs.Answer.{Answers};
ghost use Rattle.fm_model.specs.LoadVars as spec;

use fm_base::{Bytes, Fail};
use fm_model::LoadFault;
use std::alloc::Global;

// The number of bytes that two lists have in common at their fronts.
#[tactic(auto, using(crate::proofs::GridLemmas::commons))]
fn common_len(bytes: &[u8], others: &[u8]) -> usize
    ensures { result ≡ common_prefix_len nat_eq bytes.now others.now }
{
    let mut len = 0;
    while len < bytes.len() && len < others.len() && bytes[len] == others[len] {
        len += 1;
    }
    len
}

// The byte at an offset, and 0 past the end.
fn byte_at(bytes: &[u8], offset: usize) -> u8
    ensures { result ≡ slice_index bytes.now offset }
{
    match bytes.get(offset) {
        Some(byte) => *byte,
        None => 0,
    }
}

/// The elements of the coordinate variable of a name are those of the prototype, or differ first at an offset.
/// The fault tells the offset and both bytes.
#[tactic(auto, unfolding(fm_model::specs::LoadVars::same_bytes))]
pub fn same_bytes(
    alloc: Global,
    name: &[u8],
    proto: &[u8],
    file: &[u8],
) -> Result<(), Fail<LoadFault>>
    ensures { Answers (spec.same_bytes name.now proto.now file.now) result }
{
    let offset = common_len(proto, file);
    if offset < proto.len() {
        return Err(Fail::Fault(LoadFault::GridDiffers {
            name: Bytes::copy_of(alloc, name)?,
            byte: offset as u64,
            proto: proto[offset],
            file: byte_at(file, offset),
        }));
    }
    Ok(())
}
