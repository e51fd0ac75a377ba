//! Units, packing and missing values, which a file has as the prototype has them.
#![tactic(auto, unfolding(crate::proofs::Computing::layouts, crate::proofs::Computing::attributes, crate::proofs::Computing::variables, crate::proofs::Computing::loads))]

ghost use Rattle.std.specs.Prelude.{◌≡◌, [], ◌∷◌, ◌++◌, Ok, Err, codes};
ghost use Rattle.nc_model.specs.declared.kind.Kind.TheVariants.{Byte, Float, Int};
ghost use Rattle.fm_model.specs.declared.loaded.LoadFault.TheVariants.{AttributeDiffers, VariableDiffers};
ghost use Rattle.fm_model.specs.Example.{field_header, field_proto, field_var, packed_field, packed_var, record_axis};
ghost use Rattle.fm_model.specs.Example.{number_attr, text_attr};
ghost use Rattle.fm_model.specs.LoadVars.{file_slot};
ghost use Rattle.fm_model.specs.Packing.{same_packing};

/// Each of the five has to be there in both or in neither.
pub fn an_attribute_is_in_both_or_in_neither()
    ensures none { same_packing (packed_field []) (packed_var []) ≡ Ok tt }
    ensures units { same_packing (packed_field (text_attr (codes "units") (codes "K") ∷ [])) (packed_var [])
        ≡ Err (AttributeDiffers (codes "t") (codes "units")) }
    ensures scale { same_packing (packed_field [])
        (packed_var (number_attr (codes "scale_factor") Float (63 ∷ 128 ∷ 0 ∷ 0 ∷ []) ∷ []))
        ≡ Err (AttributeDiffers (codes "t") (codes "scale_factor")) }
    ensures offset { same_packing (packed_field (number_attr (codes "add_offset") Byte (1 ∷ []) ∷ [])) (packed_var [])
        ≡ Err (AttributeDiffers (codes "t") (codes "add_offset")) }
    ensures fill { same_packing (packed_field [])
        (packed_var (number_attr (codes "_FillValue") Byte (1 ∷ []) ∷ []))
        ≡ Err (AttributeDiffers (codes "t") (codes "_FillValue")) }
    ensures missing { same_packing (packed_field (number_attr (codes "missing_value") Byte (1 ∷ []) ∷ []))
        (packed_var [])
        ≡ Err (AttributeDiffers (codes "t") (codes "missing_value")) }
{}

/// The kind counts and each byte of the values, but of a text not the zeros at its end.
pub fn an_attribute_has_its_kind_and_its_values()
    ensures same { same_packing (packed_field (number_attr (codes "add_offset") Byte (1 ∷ []) ∷ []))
        (packed_var (text_attr (codes "long_name") (codes "x") ∷ number_attr (codes "add_offset") Byte (1 ∷ []) ∷ []))
        ≡ Ok tt }
    ensures kind { same_packing (packed_field (number_attr (codes "add_offset") Float (0 ∷ 0 ∷ 0 ∷ 1 ∷ []) ∷ []))
        (packed_var (number_attr (codes "add_offset") Int (0 ∷ 0 ∷ 0 ∷ 1 ∷ []) ∷ []))
        ≡ Err (AttributeDiffers (codes "t") (codes "add_offset")) }
    ensures values { same_packing (packed_field (number_attr (codes "add_offset") Byte (1 ∷ []) ∷ []))
        (packed_var (number_attr (codes "add_offset") Byte (1 ∷ 0 ∷ []) ∷ []))
        ≡ Err (AttributeDiffers (codes "t") (codes "add_offset")) }
    ensures zeros { same_packing (packed_field (text_attr (codes "units") (codes "K") ∷ []))
        (packed_var (text_attr (codes "units") (codes "K" ++ 0 ∷ 0 ∷ []) ∷ []))
        ≡ Ok tt }
    ensures text { same_packing (packed_field (text_attr (codes "units") (codes "K") ∷ []))
        (packed_var (text_attr (codes "units") (codes "k") ∷ []))
        ≡ Err (AttributeDiffers (codes "t") (codes "units")) }
{}

/// Of two that differ the one counts that is compared first, wherever it stands; other attributes aren't compared.
pub fn attributes_are_compared_in_their_order()
    ensures order { same_packing (packed_field (text_attr (codes "missing_value") (codes "x")
        ∷ text_attr (codes "_FillValue") (codes "y") ∷ [])) (packed_var [])
        ≡ Err (AttributeDiffers (codes "t") (codes "_FillValue")) }
    ensures others { same_packing (packed_field (text_attr (codes "valid_range") (codes "x") ∷ []))
        (packed_var (text_attr (codes "Units") (codes "K") ∷ []))
        ≡ Ok tt }
{}

/// The kind and the dimensions of a variable come before its packing, and a slot after it.
pub fn packing_is_compared_after_kinds_and_lengths()
    ensures kind { file_slot field_proto (field_header (record (field_var Int (0 ∷ 1 ∷ 2 ∷ []))
        { attrs = text_attr (codes "units") (codes "K") ∷ [] } ∷ [])) record_axis (packed_field [])
        ≡ Err (VariableDiffers (codes "t")) }
    ensures packing { file_slot field_proto
        (field_header (packed_var (text_attr (codes "units") (codes "K") ∷ []) ∷ [])) record_axis (packed_field [])
        ≡ Err (AttributeDiffers (codes "t") (codes "units")) }
    ensures taken { file_slot field_proto
        (field_header (packed_var (text_attr (codes "units") (codes "K") ∷ []) ∷ [])) record_axis
        (packed_field (text_attr (codes "units") (codes "K") ∷ []))
        ≡ Ok (record { begin = 296; step = 20 }) }
{}
