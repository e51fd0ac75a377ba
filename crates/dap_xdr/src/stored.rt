//! Numbers that stand in a file, written as elements of an array.
ghost use Rattle.std.specs.Prelude.{ℕ, List, drop};
ghost use Rattle.std.specs.List.{flat_map};
ghost use Rattle.dap_model.specs.Xdr.{element_bytes};
ghost use Rattle.dap_number.specs.Front.{IsFront};
ghost use Rattle.dap_xdr.specs.Stretch.{AreBytesOf};

use crate::widen::widen;
use dap_model::DapKind;
use dap_number::put;

// Writes numbers that stand in a file, from an offset among their bytes on, as many as can be written at once: maybe
// nothing.
#[tactic(auto, using(crate::proofs::StoredLemmas::stored))]
pub(crate) fn put_stored(kind: DapKind, stored: &[u8], skip: u64, out: &mut [u8]) -> usize
    ensures { (numbers : List ℕ) → AreBytesOf kind numbers stored.now
        → IsFront (drop skip (flat_map (element_bytes kind) numbers)) out.old out.new result }
{
    match kind {
        DapKind::Int16 if skip == 0 => widen(stored, out),
        DapKind::Int16 => 0,
        _ => put(stored, skip, out),
    }
}
