//! Times and runs of a file. The epoch is 2020-01-01T00:00:00Z.
ghost use Rattle.std.specs.Prelude.{◌≡◌, [], ◌∷◌, Ok, Err, codes, pos, negsuc};
ghost use Rattle.nc_model.specs.declared.kind.Kind.TheVariants.{Char, Double, Int};
ghost use Rattle.fm_model.specs.declared.loaded.LoadFault.TheVariants.{NoRunTime, NoTimes, NotWhole, RunRange, TimeRange, TimeRepeated, TooManyTimes, Units};
ghost use Rattle.nc_model.specs.declared.units.UnitsFault.TheVariants.{BadUnits, Calendar};
ghost use Rattle.fm_model.specs.Example.{site, text_attr, since_1970, since_epoch, times_var, times_header};
ghost use Rattle.fm_model.specs.LoadTimes.{file_times, file_units, run_by_name, run_by_variable, run_in_range, time_at, time_count};

/// A time is taken up to 2^30 - 1 seconds from the epoch, and not one second further.
pub fn a_time_is_taken_up_to_the_range()
    ensures last { time_at site (63 ∷ 255 ∷ 255 ∷ 255 ∷ []) (times_header 1 (times_var Int []))
        (times_var Int []) (since_epoch 1) 0
        ≡ Ok (pos 1073741823) }
    ensures past { time_at site (64 ∷ 0 ∷ 0 ∷ 0 ∷ []) (times_header 1 (times_var Int []))
        (times_var Int []) (since_epoch 1) 0
        ≡ Err (TimeRange 0 (pos 1073741824)) }
{}

/// Half an hour is 1800 seconds, and a third of an hour in binary is no whole number of them.
pub fn a_time_is_a_whole_number_of_seconds()
    ensures half { time_at site (63 ∷ 224 ∷ 0 ∷ 0 ∷ 0 ∷ 0 ∷ 0 ∷ 0 ∷ [])
        (times_header 1 (times_var Double [])) (times_var Double []) (since_epoch 3600) 0
        ≡ Ok (pos 1800) }
    ensures third { time_at site (63 ∷ 213 ∷ 85 ∷ 85 ∷ 85 ∷ 85 ∷ 85 ∷ 85 ∷ [])
        (times_header 1 (times_var Double [])) (times_var Double []) (since_epoch 3600) 0
        ≡ Err (NotWhole 0) }
{}

/// The second of two equal times is refused.
pub fn a_repeated_time_is_refused()
    ensures { file_times site (0 ∷ 0 ∷ 0 ∷ 9 ∷ 0 ∷ 0 ∷ 0 ∷ 9 ∷ [])
        (times_header 2 (times_var Int [])) (times_var Int []) (since_epoch 1) 2
        ≡ Err (TimeRepeated 1) }
{}

/// A name without a mark has no run.
pub fn a_name_without_a_mark_has_no_run()
    ensures { run_by_name site (codes "x.nc") ≡ Err NoRunTime }
{}

/// A time is counted from the collection's epoch, whatever the origin of its units: 2024-01-01T00:00:00Z is 126230400
/// seconds after 2020-01-01T00:00:00Z.
pub fn a_time_counts_from_the_epoch()
    ensures { time_at site (101 ∷ 146 ∷ 0 ∷ 128 ∷ []) (times_header 1 (times_var Int []))
        (times_var Int []) since_1970 0
        ≡ Ok (pos 126230400) }
{}

/// A file has 1 to 4,096 times.
pub fn a_file_has_some_times_and_not_too_many()
    ensures none { time_count (times_header 0 (times_var Int [])) (times_var Int [])
        ≡ Err NoTimes }
    ensures most { time_count (times_header 4096 (times_var Int [])) (times_var Int [])
        ≡ Ok 4096 }
    ensures more { time_count (times_header 4097 (times_var Int [])) (times_var Int [])
        ≡ Err (TooManyTimes 4097) }
{}

/// An axis without `units` has the empty text there, and the calendar has to be the Gregorian one.
pub fn units_are_read_from_the_attributes()
    ensures missing { file_units (times_var Int []) ≡ Err (Units (BadUnits 0)) }
    ensures calendar { file_units (times_var Int (text_attr (codes "units") (codes "s since 2020-1-1")
        ∷ text_attr (codes "calendar") (codes "noleap") ∷ []))
        ≡ Err (Units Calendar) }
{}

/// The variable of the run's time is one number, and a run lies within the range.
pub fn a_run_is_one_number_within_the_range()
    ensures two { run_by_variable site [] (times_header 2 (times_var Int [])) (times_var Int [])
        ≡ Err NoRunTime }
    ensures characters { run_by_variable site [] (times_header 1 (times_var Char []))
        (times_var Char [])
        ≡ Err NoRunTime }
    ensures last { run_in_range (negsuc 1073741822) ≡ Ok (negsuc 1073741822) }
    ensures past { run_in_range (negsuc 1073741823) ≡ Err (RunRange (negsuc 1073741823)) }
{}
