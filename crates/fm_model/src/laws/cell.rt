//! Cells, and the best run for a valid time.
ghost use Rattle.std.specs.Prelude.{◌≡◌, ◌↔◌, ℕ, List, ℤ, Option, Some, None, All, Any, Contains};
ghost use Rattle.std.specs.List.{flat_map};
ghost use Rattle.fm_model.specs.declared.loaded.Loaded.{Loaded};
ghost use Rattle.fm_model.specs.Cell.{cell, best, runs_of, times_of, times_of_run};
ghost use Rattle.fm_model.specs.Cell.{HasCell, HasTimeFrom, IsCell, IsBest};
ghost use Rattle.fm_model.specs.Rising.{rising, Rises};

/// The cell of a run and a valid time is in the last file of that run with that time, at the time's index in it.
pub fn cell_is_in_the_last_file()
    ensures { (files : List Loaded) (run valid : ℤ) (file : Loaded) (index : ℕ) →
        (cell files run valid ≡ Some (file, index)) ↔ IsCell files run valid file index }
{}

/// There is no cell exactly where no file of that run has that time.
pub fn no_cell_where_no_file_has_it()
    ensures { (files : List Loaded) (run valid : ℤ) →
        (cell files run valid ≡ None) ↔ All (λ file. ¬ HasCell run valid file) files }
{}

/// The best run for a valid time is the greatest that has a cell there, at least the least offset before the valid time
/// where one is given.
pub fn best_is_the_greatest_run()
    ensures { (files : List Loaded) (valid : ℤ) (least : Option ℤ) (run : ℤ) →
        (best files valid least ≡ Some run) ↔ IsBest files valid least run }
{}

/// There is no best run exactly where no file has the valid time; with a least offset, exactly where none has it at
/// least that many seconds after its run.
pub fn no_best_where_no_file_has_it()
    ensures absent { (files : List Loaded) (valid : ℤ) →
        (best files valid None ≡ None) ↔ All (λ file. ¬ Contains file.times valid) files }
    ensures given { (files : List Loaded) (valid least : ℤ) →
        (best files valid (Some least) ≡ None)
        ↔ All (λ file. ¬ HasTimeFrom valid (Some least) file) files }
{}

/// The runs of a collection, and the valid times of one run, are those of its files, and rise: each stands there once.
/// The valid times of all files are those of all runs.
pub fn runs_and_times_rise()
    ensures runs { (files : List Loaded) → Rises (runs_of files) }
    ensures held_runs { (files : List Loaded) (run : ℤ) →
        Contains (runs_of files) run ↔ Any (λ (file : Loaded). file.run ≡ run) files }
    ensures times { (files : List Loaded) (run : ℤ) → Rises (times_of_run files run) }
    ensures held_times { (files : List Loaded) (run valid : ℤ) →
        Contains (times_of_run files run) valid ↔ Any (HasCell run valid) files }
    ensures all_times { (files : List Loaded) →
        times_of files ≡ rising (flat_map (times_of_run files) (runs_of files)) }
{}
