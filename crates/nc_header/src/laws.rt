//! Laws of the first fault of a header.
ghost use Rattle.std.specs.Prelude.{◌≡◌, ℕ, List, Err};
ghost use Rattle.nc_model.specs.declared.fault.HeaderFault.{HeaderFault};
ghost use Rattle.nc_model.specs.FaultOffsets.{IsFaultOf};
ghost use Rattle.nc_model.specs.Format.{IsBytes};
ghost use Rattle.nc_model.specs.Reading.{header_or_fault};

/// The bytes before the offset of a fault begin the spelling of some header. The bytes up to the end of the field
/// that begins there settle the fault: whatever follows them, it is the same, and no header is spelled. `Truncated` is
/// a field that begins in the bytes and ends past them. `BadMagic` and `BadVersion` are said of the first four bytes.
#[tactic(auto, using(nc_model::proofs::FaultLaws::fault_laws))]
pub fn a_fault_is_settled_by_its_field()
    ensures { (bytes : List ℕ) (fault : HeaderFault) → IsBytes bytes
        → header_or_fault bytes ≡ Err fault
        → IsFaultOf bytes fault }
{}
