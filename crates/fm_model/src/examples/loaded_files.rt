//! Whole files that are taken over a prototype, and the first fault of a file that has two.
#![tactic(auto, unfolding(crate::proofs::Computing::layouts, crate::proofs::Computing::headers, crate::proofs::Computing::attributes, crate::proofs::Computing::variables, crate::proofs::Computing::stamps, crate::proofs::Computing::units, crate::proofs::Computing::loads))]

ghost use Rattle.std.specs.Prelude.{◌≡◌, [], ◌∷◌, Err, Ok, codes, negsuc, pos};
ghost use Rattle.nc_model.specs.declared.fault.HeaderFault.TheVariants.{BadVersion};
ghost use Rattle.nc_model.specs.declared.fault.LayoutFault.TheVariants.{DataOutside};
ghost use Rattle.nc_model.specs.declared.units.UnitsFault.TheVariants.{BadUnits};
ghost use Rattle.fm_model.specs.declared.loaded.LoadFault.TheVariants.{Header, Layout, Units, NoRunTime, NotWhole, TimeRange, TimeRepeated};
ghost use Rattle.fm_model.specs.declared.loaded.LoadFault.TheVariants.{MissingVariable, VariableDiffers, GridDiffers, NoTimes, TooManyTimes, RunNotWhole, RunRange};
ghost use Rattle.fm_model.specs.ExampleFiles.{file_a, file_c, loaded_a, loaded_c, many_times, patched, proto_a, proto_c, proto_of_axis};
ghost use Rattle.fm_model.specs.Load.{load_of};

/// The run is that of the mark in the name, and each record of 20 bytes has a time.
pub fn a_file_is_loaded_with_the_run_of_its_name()
    ensures { load_of (codes "gfs_20240101_0000.nc") file_a proto_a ≡ Ok loaded_a }
{}

/// The run is that of its variable, by its own units. Where the axis is no record dimension, the data of the times
/// follows without a gap.
pub fn a_file_is_loaded_with_the_run_of_its_variable()
    ensures { load_of (codes "any.nc") file_c proto_c ≡ Ok loaded_c }
{}

/// A fault of the header comes before one of the layout, that before a missing axis, and that before a missing run.
pub fn a_header_has_to_be_sound_before_the_axis_of_a_file()
    ensures header { load_of (codes "gfs_20240101_0000.nc")
        (patched 3 (3 ∷ []) (patched 272 (1 ∷ []) file_a)) proto_a
        ≡ Err (Header (BadVersion 3)) }
    ensures layout { load_of (codes "gfs_20240101_0000.nc")
        (patched 272 (1 ∷ []) (patched 75 (codes "a") file_a)) proto_a
        ≡ Err (Layout (DataOutside 3 16777568 352)) }
    ensures missing { load_of (codes "x.nc") (patched 75 (codes "a") file_a) proto_a
        ≡ Err (MissingVariable (codes "time")) }
{}

/// An axis of characters comes before a fault of its units, that before a missing run, and that before missing times.
pub fn an_axis_has_units_before_a_run_and_times()
    ensures axis { load_of (codes "gfs_20240101_0000.nc")
        (patched 151 (2 ∷ []) (patched 112 (codes "x") file_a)) proto_a
        ≡ Err (VariableDiffers (codes "time")) }
    ensures units { load_of (codes "x.nc") (patched 112 (codes "x") file_a) proto_a
        ≡ Err (Units (BadUnits 0)) }
    ensures run { load_of (codes "x.nc") (patched 7 (0 ∷ []) file_a) proto_a ≡ Err NoRunTime }
    ensures range { load_of (codes "gfs_19000101_0000.nc") (patched 7 (0 ∷ []) file_a) proto_a
        ≡ Err (RunRange (negsuc 3786825599)) }
{}

/// A run that isn't one number comes before its units, these before its value, and that before missing times.
pub fn a_run_is_one_number_before_its_units()
    ensures number { load_of (codes "any.nc")
        (patched 451 (2 ∷ []) (patched 424 (codes "x") file_c)) proto_c
        ≡ Err NoRunTime }
    ensures units { load_of (codes "any.nc")
        (patched 424 (codes "x") (patched 535 (12 ∷ []) file_c)) proto_c
        ≡ Err (Units (BadUnits 0)) }
    ensures value { let none = patched 7 (0 ∷ []) (patched 27 (0 ∷ []) (patched 43 (2 ∷ []) file_c)) in
        load_of (codes "any.nc") (patched 451 (5 ∷ []) none) proto_c ≡ Err RunNotWhole }
    ensures range { let none = patched 7 (0 ∷ []) (patched 27 (0 ∷ []) (patched 43 (2 ∷ []) file_c)) in
        load_of (codes "any.nc") (patched 552 (1 ∷ []) none) proto_c
        ≡ Err (RunRange (pos 1449677692800)) }
{}

/// The number of times comes before their values, and the times come in their order, each before the variables.
pub fn times_are_counted_before_they_are_read()
    ensures none { load_of (codes "gfs_20240101_0000.nc")
        (patched 7 (0 ∷ []) (patched 166 (codes "x") file_a)) proto_a
        ≡ Err NoTimes }
    ensures many { load_of (codes "gfs_20240101_0000.nc") many_times proto_of_axis
        ≡ Err (TooManyTimes 4097) }
    ensures whole { load_of (codes "gfs_20240101_0000.nc")
        (patched 151 (5 ∷ []) (patched 166 (codes "x") file_a)) proto_a
        ≡ Err (NotWhole 0) }
{}

/// The first time at fault counts, whatever its fault, before the variables.
pub fn the_first_time_at_fault_counts()
    ensures range { let repeated = patched 332 (101 ∷ 146 ∷ 0 ∷ 128 ∷ []) file_a in
        load_of (codes "gfs_20240101_0000.nc") (patched 312 (128 ∷ []) repeated) proto_a
        ≡ Err (TimeRange 1 (negsuc 3715730463)) }
    ensures repeated { let far = patched 332 (128 ∷ []) file_a in
        load_of (codes "gfs_20240101_0000.nc")
        (patched 312 (101 ∷ 146 ∷ 0 ∷ 128 ∷ []) far) proto_a
        ≡ Err (TimeRepeated 1) }
    ensures variable { let missing = patched 166 (codes "x") file_a in
        load_of (codes "gfs_20240101_0000.nc")
        (patched 312 (101 ∷ 146 ∷ 0 ∷ 128 ∷ []) missing) proto_a
        ≡ Err (TimeRepeated 1) }
{}

/// Variables come in the prototype's order, and of one the kind and lengths come before its elements.
pub fn variables_are_looked_at_in_the_prototypes_order()
    ensures missing { load_of (codes "gfs_20240101_0000.nc")
        (patched 166 (codes "x") (patched 267 (4 ∷ []) file_a)) proto_a
        ≡ Err (MissingVariable (codes "lat")) }
    ensures kind { load_of (codes "gfs_20240101_0000.nc")
        (patched 187 (4 ∷ []) (patched 276 (64 ∷ []) file_a)) proto_a
        ≡ Err (VariableDiffers (codes "lat")) }
    ensures grid { load_of (codes "gfs_20240101_0000.nc")
        (patched 276 (64 ∷ []) (patched 236 (codes "u") file_a)) proto_a
        ≡ Err (GridDiffers (codes "lat") 0 65 64) }
    ensures timed { load_of (codes "gfs_20240101_0000.nc") (patched 236 (codes "u") file_a) proto_a
        ≡ Err (MissingVariable (codes "t")) }
{}
