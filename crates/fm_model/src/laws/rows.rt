//! The rows of views.
ghost use Rattle.std.specs.Prelude.{◌≡◌, ◌↔◌, ◌≤ℤ◌, ◌-ℤ◌, List, ℤ, None, Some, map, All, Any, Contains};
ghost use Rattle.fm_model.specs.declared.loaded.Loaded.{Loaded};
ghost use Rattle.fm_model.specs.declared.row.Row.{Row};
ghost use Rattle.fm_model.specs.declared.row.ViewName.{ViewName};
ghost use Rattle.fm_model.specs.declared.row.ViewName.TheVariants.{Best, BestFrom, Run};
ghost use Rattle.fm_model.specs.Cell.{cell, times_of, times_of_run, HasTimeFrom, IsBest};
ghost use Rattle.fm_model.specs.Rising.{Rises};
ghost use Rattle.fm_model.specs.Rows.{rows, instant_in, Shows, HasHeldFile};

/// The rows of a view rise: by valid time in a best time series and in the dataset of a run, by run at an offset and
/// for a forecast time. So no instant stands there twice.
pub fn rows_rise()
    ensures { (files : List Loaded) (view : ViewName) →
        Rises (map (instant_in view) (rows files view)) }
{}

/// The rows of a view are the cells that it shows, and no others.
pub fn rows_are_the_cells_shown()
    ensures { (files : List Loaded) (view : ViewName) (row : Row) →
        Contains (rows files view) row
        ↔ ((cell files row.run row.valid ≡ Some (row.file, row.index))
        × Shows files view row.run row.valid) }
{}

/// Each valid time that any file has stands once in the best time series, in rising order, from the greatest run that
/// has it.
pub fn best_has_each_time_once()
    ensures times { (files : List Loaded) →
        map (λ (row : Row). row.valid) (rows files Best) ≡ times_of files }
    ensures any_file { (files : List Loaded) (valid : ℤ) →
        Contains (map (λ (row : Row). row.valid) (rows files Best)) valid
        ↔ Any (λ (file : Loaded). Contains file.times valid) files }
    ensures greatest { (files : List Loaded) (row : Row) →
        Contains (rows files Best) row → IsBest files row.valid None row.run }
{}

/// With a least offset the best time series has each valid time that some file has at least that many seconds after
/// its run, once, from the greatest such run. A valid time that no run has early enough is left out.
pub fn a_least_offset_leaves_the_times_that_some_run_has_early_enough()
    ensures times { (files : List Loaded) (least valid : ℤ) →
        Contains (map (λ (row : Row). row.valid) (rows files (BestFrom least))) valid
        ↔ Any (HasTimeFrom valid (Some least)) files }
    ensures greatest { (files : List Loaded) (least : ℤ) (row : Row) →
        Contains (rows files (BestFrom least)) row → IsBest files row.valid (Some least) row.run }
    ensures offset { (files : List Loaded) (least : ℤ) (row : Row) →
        Contains (rows files (BestFrom least)) row → least ≤ℤ (row.valid -ℤ row.run) }
{}

/// A least offset that no valid time of a file lies below, as the least of all offsets, leaves the best time series.
pub fn the_least_of_all_offsets_leaves_the_best_time_series()
    ensures { (files : List Loaded) (least : ℤ) →
        All (λ (file : Loaded). All (λ time. least ≤ℤ (time -ℤ file.run)) file.times) files
        → rows files (BestFrom least) ≡ rows files Best }
{}

/// Each valid time of a run stands once in the dataset of the run, in rising order.
pub fn a_run_has_each_of_its_times_once()
    ensures { (files : List Loaded) (run : ℤ) →
        map (λ (row : Row). row.valid) (rows files (Run run)) ≡ times_of_run files run }
{}

/// The file of a row is held, is of the row's run, and has the row's valid time at the row's index.
pub fn rows_have_held_files()
    ensures { (files : List Loaded) (view : ViewName) (row : Row) →
        Contains (rows files view) row → HasHeldFile files row }
{}
