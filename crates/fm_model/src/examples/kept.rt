//! What a prototype keeps of its file.
#![tactic(auto, unfolding(crate::proofs::Computing::layouts, crate::proofs::Computing::attributes, crate::proofs::Computing::variables, crate::proofs::Computing::prototypes))]

ghost use Rattle.std.specs.Prelude.{◌≡◌, [], ◌∷◌, codes, false};
ghost use Rattle.nc_model.specs.declared.kind.Kind.TheVariants.{Float, Int};
ghost use Rattle.fm_model.specs.Example.{site, record_axis, field_var, field_header, field_proto};
ghost use Rattle.fm_model.specs.Example.{times_var, header_with, number_var};
ghost use Rattle.fm_model.specs.Prototype.{proto_var, proto_with};

/// What a prototype keeps: lengths instead of records, and no elements of what lies along the axis.
pub fn a_prototype_is_made_of_its_header()
    ensures { proto_with [] site (field_header (field_var Float (0 ∷ 1 ∷ 2 ∷ []) ∷ [])) record_axis
        ≡ field_proto }
{}

/// A variable that doesn't lie along the axis keeps its elements.
pub fn a_variable_without_time_keeps_its_elements()
    ensures { proto_var (1 ∷ 2 ∷ 3 ∷ 4 ∷ 5 ∷ 6 ∷ 7 ∷ 8 ∷ [])
        (header_with (codes "lat") 2 (number_var (codes "lat") (1 ∷ []))) (times_var Int [])
        (number_var (codes "lat") (1 ∷ []))
        ≡ record {
          name = codes "lat";
          kind = Int;
          dims = 1 ∷ [];
          attrs = [];
          timed = false;
          fixed = 1 ∷ 2 ∷ 3 ∷ 4 ∷ 5 ∷ 6 ∷ 7 ∷ 8 ∷ [];
        } }
{}
