//! Texts, axes, and which variables the views show.
#![tactic(auto, unfolding(crate::proofs::Computing::attributes, crate::proofs::Computing::variables, crate::proofs::Computing::prototypes))]

ghost use Rattle.std.specs.Prelude.{◌≡◌, [], ◌∷◌, ◌++◌, None, Some, codes};
ghost use Rattle.nc_model.specs.declared.kind.Kind.TheVariants.{Char, Int};
ghost use Rattle.fm_model.specs.Attribute.{attr_text};
ghost use Rattle.fm_model.specs.Example.{times_var, times_header, text_attr, header_of, header_with};
ghost use Rattle.fm_model.specs.Example.{number_attr, number_var, valid_var, run_var, flag_var};
ghost use Rattle.fm_model.specs.Prototype.{kept_vars};
ghost use Rattle.fm_model.specs.Variable.{axis_of, reference_of};

/// A text ends before the zero bytes at its end, and an attribute of numbers has none.
pub fn a_text_ends_before_its_last_zeros()
    ensures text { attr_text (text_attr (codes "units") (104 ∷ 0 ∷ 100 ∷ 0 ∷ 0 ∷ []))
        ≡ Some (104 ∷ 0 ∷ 100 ∷ []) }
    ensures numbers { attr_text (record { name = codes "units"; kind = Int; values = [] }) ≡ None }
{}

/// A variable of times is the axis by its name or by its standard name, unless it is of characters. One that is also
/// the reference time stays in the views.
pub fn an_axis_is_a_coordinate_variable_of_numbers()
    ensures numbers { axis_of (times_header 1 (times_var Int [])) ≡ Some (times_var Int []) }
    ensures characters { axis_of (times_header 1 (times_var Char [])) ≡ None }
    ensures standard_name { axis_of (header_of (codes "valid") valid_var) ≡ Some valid_var }
    ensures neither { axis_of (header_of (codes "valid") (number_var (codes "valid") (0 ∷ [])))
        ≡ None }
    ensures analysis { let axis = times_var Int
        (text_attr (codes "standard_name") (codes "forecast_reference_time") ∷ []) in
        reference_of (times_header 1 axis) ≡ Some axis }
    ensures kept { let axis = times_var Int
        (text_attr (codes "standard_name") (codes "forecast_reference_time") ∷ []) in
        kept_vars (times_header 1 axis) axis ≡ axis ∷ [] }
{}

/// The views leave out the run's time, and a variable with one character for each time.
pub fn views_leave_out_the_run_and_flags_of_times()
    ensures run { kept_vars (header_with (codes "lat") 2 (run_var (1 ∷ []))) (times_var Int [])
        ≡ times_var Int [] ∷ [] }
    ensures flags { kept_vars (header_with (codes "lat") 2 (flag_var (0 ∷ []))) (times_var Int [])
        ≡ times_var Int [] ∷ [] }
    ensures text { kept_vars (header_with (codes "lat") 2 (flag_var (1 ∷ []))) (times_var Int [])
        ≡ times_var Int [] ∷ flag_var (1 ∷ []) ∷ [] }
{}

/// The views leave out the variable that the axis names as its bounds, or as those of its climatology. The name is the
/// text without its last zeros, and of the axis alone; an attribute of numbers names nothing, and the axis stays.
pub fn views_leave_out_the_bounds_of_the_axis()
    ensures bounds { let axis = times_var Int (text_attr (codes "bounds") (codes "tb" ++ 0 ∷ []) ∷ []) in
        kept_vars (record (header_with (codes "lat") 2 (number_var (codes "tb") (0 ∷ 1 ∷ [])))
        { vars = axis ∷ number_var (codes "tb") (0 ∷ 1 ∷ []) ∷ number_var (codes "tbs") (0 ∷ 1 ∷ []) ∷ [] }) axis
        ≡ axis ∷ number_var (codes "tbs") (0 ∷ 1 ∷ []) ∷ [] }
    ensures climatology { let axis = times_var Int (text_attr (codes "climatology") (codes "tb") ∷ []) in
        kept_vars (record (header_with (codes "lat") 2 (number_var (codes "tb") (0 ∷ 1 ∷ [])))
        { vars = number_var (codes "tb") (0 ∷ 1 ∷ []) ∷ axis ∷ [] }) axis
        ≡ axis ∷ [] }
    ensures of_another { let axis = times_var Int [] in
        let lat = record (number_var (codes "lat") (1 ∷ [])) { attrs = text_attr (codes "bounds") (codes "tb") ∷ [] } in
        kept_vars (record (header_with (codes "lat") 2 lat)
        { vars = axis ∷ lat ∷ number_var (codes "tb") (0 ∷ 1 ∷ []) ∷ [] }) axis
        ≡ axis ∷ lat ∷ number_var (codes "tb") (0 ∷ 1 ∷ []) ∷ [] }
    ensures numbers { let axis = times_var Int (number_attr (codes "bounds") Int (codes "tb") ∷ []) in
        kept_vars (record (header_with (codes "lat") 2 (number_var (codes "tb") (0 ∷ 1 ∷ [])))
        { vars = axis ∷ number_var (codes "tb") (0 ∷ 1 ∷ []) ∷ [] }) axis
        ≡ axis ∷ number_var (codes "tb") (0 ∷ 1 ∷ []) ∷ [] }
    ensures itself { let axis = times_var Int (text_attr (codes "bounds") (codes "time") ∷ []) in
        kept_vars (times_header 1 axis) axis ≡ axis ∷ [] }
{}
