//! The variables of a file beside those of a prototype.
#![tactic(auto, unfolding(crate::proofs::Computing::layouts, crate::proofs::Computing::variables, crate::proofs::Computing::loads))]

ghost use Rattle.std.specs.Prelude.{◌≡◌, [], ◌∷◌, Ok, Err, codes};
ghost use Rattle.nc_model.specs.declared.kind.Kind.TheVariants.{Float, Int};
ghost use Rattle.fm_model.specs.declared.loaded.LoadFault.TheVariants.{GridDiffers, MissingVariable, VariableDiffers};
ghost use Rattle.fm_model.specs.Example.{record_axis, field_var, field_header, proto_field, field_proto};
ghost use Rattle.fm_model.specs.LoadVars.{file_slot, same_bytes};

/// Two grids differ at their first byte that isn't the same.
pub fn grids_differ_at_their_first_other_byte()
    ensures { same_bytes (codes "lat") (65 ∷ 32 ∷ 0 ∷ []) (64 ∷ 32 ∷ 0 ∷ [])
        ≡ Err (GridDiffers (codes "lat") 0 65 64) }
{}

/// Beside a time of four bytes, the data of a field of four floats a time lies 20 bytes apart.
pub fn a_slot_steps_by_a_record()
    ensures { file_slot field_proto (field_header (field_var Float (0 ∷ 1 ∷ 2 ∷ []) ∷ []))
        record_axis proto_field
        ≡ Ok (record { begin = 296; step = 20 }) }
{}

/// A variable along the axis is missing, or differs in its kind or in its dimensions.
pub fn a_variable_has_to_be_like_the_prototypes()
    ensures missing { file_slot field_proto (field_header []) record_axis proto_field
        ≡ Err (MissingVariable (codes "t")) }
    ensures kind { file_slot field_proto (field_header (field_var Int (0 ∷ 1 ∷ 2 ∷ []) ∷ []))
        record_axis proto_field
        ≡ Err (VariableDiffers (codes "t")) }
    ensures rank { file_slot field_proto (field_header (field_var Float (0 ∷ 1 ∷ []) ∷ []))
        record_axis proto_field
        ≡ Err (VariableDiffers (codes "t")) }
    ensures axis { file_slot field_proto (field_header (field_var Float (1 ∷ 1 ∷ 2 ∷ []) ∷ []))
        record_axis proto_field
        ≡ Err (VariableDiffers (codes "t")) }
{}
