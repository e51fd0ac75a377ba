//! Laws of texts of units: which are read, and where the others are refused.
ghost use Rattle.std.specs.Prelude.{◌≡◌, ℕ, List, Ok, Err, true};
ghost use Rattle.nc_model.specs.UnitsFaults.{GoesWrongFirst};
ghost use Rattle.nc_model.specs.UnitsReading.{Written, written_or_fault};
ghost use Rattle.nc_model.specs.UnitsSpelling.{SpellsUnits};

use nc_model::UnitsFault;

/// A text is read as units exactly where it spells them.
pub fn a_text_is_read_as_it_is_spelled()
    ensures spelled { (text : List ℕ) (written : Written)
        → written_or_fault text ≡ Ok written → SpellsUnits true text written }
    ensures read { (text : List ℕ) (written : Written)
        → SpellsUnits true text written → written_or_fault text ≡ Ok written }
{}

/// A text is refused at an offset exactly where it goes wrong there first: where no text of the form of units goes on
/// with what stands there, or a value that begins there is out of its range, and neither holds before.
pub fn a_text_is_refused_where_it_goes_wrong_first()
    ensures wrong { (text : List ℕ) (offset : ℕ)
        → written_or_fault text ≡ Err (UnitsFault.BadUnits offset) → GoesWrongFirst offset text }
    ensures refused { (text : List ℕ) (offset : ℕ)
        → GoesWrongFirst offset text → written_or_fault text ≡ Err (UnitsFault.BadUnits offset) }
{}

/// A text goes wrong first at one offset.
pub fn a_text_goes_wrong_first_at_one_offset()
    ensures { (text : List ℕ) (one other : ℕ)
        → GoesWrongFirst one text → GoesWrongFirst other text → one ≡ other }
{}
