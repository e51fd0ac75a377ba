//! Small files, worked by the definitions.
#![tactic(auto, unfolding(crate::proofs::Computing::layouts))]

ghost use Rattle.std.specs.Prelude.{◌≡◌, ◌<◌, ◌≤◌, [], ◌∷◌, None, Some};
ghost use Rattle.nc_model.specs.declared.fault.LayoutFault.TheVariants.{TooLarge, DataOutside};
ghost use Rattle.nc_model.specs.Layout.{record_size, layout_fault};
ghost use Rattle.nc_layout.specs.Examples.{
  offsets_of,
  short_at,
  one_short,
  two_shorts,
  no_record,
  sample,
  field_far_away,
  longest,
  longest_field,
};

/// A variable of 16-bit numbers that alone has records isn't padded.
pub fn one_short_variable()
    ensures size { record_size one_short ≡ 2 }
    ensures offsets { offsets_of one_short (short_at 100) ≡ 100 ∷ 102 ∷ 104 ∷ [] }
{}

/// Two variables of 16-bit numbers with records are both padded.
pub fn two_short_variables()
    ensures size { record_size two_shorts ≡ 8 }
    ensures first { offsets_of two_shorts (short_at 100) ≡ 100 ∷ 108 ∷ 116 ∷ [] }
    ensures second { offsets_of two_shorts (short_at 104) ≡ 104 ∷ 112 ∷ 120 ∷ [] }
{}

/// A file of 352 bytes, cut to another length: the times end at 336, and the field at the file's end.
pub fn file_that_is_cut(len: u64)
    ensures times { len < 336 → layout_fault sample len ≡ Some (DataOutside 0 336 len) }
    ensures field { 336 ≤ len → len < 352 → layout_fault sample len ≡ Some (DataOutside 3 352 len) }
    ensures whole { 352 ≤ len → layout_fault sample len ≡ None }
{}

/// Headers whose data lies far outside of the file, and one of a variable that is too large though it has no element.
pub fn files_that_claim_much()
    ensures begin { layout_fault field_far_away 352 ≡ Some (DataOutside 3 4294967351 352) }
    ensures length { layout_fault longest 352 ≡ Some (DataOutside 0 34359738656 352) }
    ensures large { layout_fault longest_field 352 ≡ Some (TooLarge 3) }
{}

/// A variable of which there is no record has no element, so it lies in a file of any length.
pub fn variable_without_elements(len: u64)
    ensures size { record_size no_record ≡ 2 }
    ensures offsets { offsets_of no_record (short_at 100) ≡ [] }
    ensures lies { layout_fault no_record len ≡ None }
{}
