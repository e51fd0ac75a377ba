//! Collections after operations.
ghost use Rattle.std.specs.Prelude.{◌≡◌, ◌≢◌, ◌≤◌, ◌+◌, ◌↔◌, [], ◌∷◌, ◌++◌, ◌≤ℤ◌, ◌<ℤ◌, ℕ};
ghost use Rattle.std.specs.Prelude.{List, ℤ, None, Some, true, false, All, AllPairs, Any, Contains, filter, length};
ghost use Rattle.std.specs.List.{last_or};
ghost use Rattle.std.specs.Str.{bytes_eq};
ghost use Rattle.fm_model.specs.declared.full.Full.{Full as TooMany};
ghost use Rattle.fm_model.specs.declared.full.Which.TheVariants.{Files};
ghost use Rattle.fm_model.specs.declared.loaded.Loaded.{Loaded};
ghost use Rattle.fm_model.specs.declared.op.Op.{Op};
ghost use Rattle.fm_model.specs.declared.op.Op.TheVariants.{Put, Expire, Retract};
ghost use Rattle.fm_model.specs.Collection.{after_op, coll, full_at, holds, holds_older, tally, without};
ghost use Rattle.fm_model.specs.Collection.{DifferInName, IsFirstPassed, IsWithin};

use crate::limit::MAX_FILES;

/// A put leaves one file of its name, which is the last of all, and all other files in their order.
pub fn put_leaves_one_of_its_name()
    ensures one { (files : List Loaded) (file : Loaded) →
        filter (λ (other : Loaded). bytes_eq other.name file.name) (after_op files (Put file))
        ≡ file ∷ [] }
    ensures last { (files : List Loaded) (file : Loaded) →
        last_or None (after_op files (Put file)) ≡ Some file }
    ensures others { (files : List Loaded) (file : Loaded) →
        without file.name (after_op files (Put file)) ≡ without file.name files }
{}

/// A put under the name of a held file replaces it, and so leaves the number of files; any other adds one.
pub fn put_counts_names()
    ensures held { (files : List Loaded) (file : Loaded) → AllPairs DifferInName files
        → Any (λ (other : Loaded). other.name ≡ file.name) files
        → length (after_op files (Put file)) ≡ length files }
    ensures new { (files : List Loaded) (file : Loaded) → All (DifferInName file) files
        → length (after_op files (Put file)) ≡ length files + 1 }
{}

/// An expire keeps the files whose run is the cutoff or later, in their order. The same expire again changes nothing.
pub fn expire_keeps_runs_from_its_cutoff()
    ensures kept { (files : List Loaded) (cutoff : ℤ) (file : Loaded) →
        Contains (after_op files (Expire cutoff)) file
        ↔ (Contains files file × cutoff ≤ℤ file.run) }
    ensures order { (files more : List Loaded) (cutoff : ℤ) →
        after_op (files ++ more) (Expire cutoff)
        ≡ after_op files (Expire cutoff) ++ after_op more (Expire cutoff) }
    ensures again { (files : List Loaded) (cutoff : ℤ) →
        after_op (after_op files (Expire cutoff)) (Expire cutoff)
        ≡ after_op files (Expire cutoff) }
{}

/// A retraction leaves the files without that of its name, in their order: it takes out just that file, whatever others
/// its run has. The same retraction again changes nothing, and a put of that name leaves what it leaves without it.
pub fn a_retraction_takes_out_the_file_of_its_name()
    ensures kept { (files : List Loaded) (name : List ℕ) (file : Loaded) →
        Contains (after_op files (Retract name)) file
        ↔ (Contains files file × (file.name ≢ name)) }
    ensures one { (before after : List Loaded) (file : Loaded) →
        AllPairs DifferInName (before ++ file ∷ after)
        → after_op (before ++ file ∷ after) (Retract file.name) ≡ before ++ after }
    ensures order { (files more : List Loaded) (name : List ℕ) →
        after_op (files ++ more) (Retract name)
        ≡ after_op files (Retract name) ++ after_op more (Retract name) }
    ensures again { (files : List Loaded) (name : List ℕ) →
        after_op (after_op files (Retract name)) (Retract name)
        ≡ after_op files (Retract name) }
    ensures put { (files : List Loaded) (file : Loaded) →
        after_op (after_op files (Retract file.name)) (Put file) ≡ after_op files (Put file) }
{}

/// A retraction of a name that no held file has, and an expire of runs that are all at its cutoff or later, change
/// nothing.
pub fn what_is_not_held_is_not_taken_out()
    ensures name { (files : List Loaded) (name : List ℕ) →
        (holds files name ≡ true) ↔ Any (λ (file : Loaded). file.name ≡ name) files }
    ensures retract { (files : List Loaded) (name : List ℕ) →
        holds files name ≡ false → after_op files (Retract name) ≡ files }
    ensures older { (files : List Loaded) (cutoff : ℤ) →
        (holds_older files cutoff ≡ true) ↔ Any (λ (file : Loaded). file.run <ℤ cutoff) files }
    ensures expire { (files : List Loaded) (cutoff : ℤ) →
        holds_older files cutoff ≡ false → after_op files (Expire cutoff) ≡ files }
{}

/// The files of a collection have different names, whatever was done.
pub fn names_differ()
    ensures { (ops : List Op) → AllPairs DifferInName (coll ops) }
{}

/// A collection is empty at the start, and one more operation is done to what those before it left.
pub fn operations_follow_each_other()
    ensures none { coll [] ≡ [] }
    ensures more { (ops : List Op) (op : Op) → coll (ops ++ op ∷ []) ≡ after_op (coll ops) op }
{}

/// An operation is refused exactly where the collection after it would pass a limit, for the first that it passes.
pub fn full_exactly_past_a_limit()
    ensures none { (files : List Loaded) (op : Op) →
        (full_at files op ≡ None) ↔ IsWithin (tally (after_op files op)) }
    ensures full { (files : List Loaded) (op : Op) (full : TooMany) →
        (full_at files op ≡ Some full) ↔ IsFirstPassed (tally (after_op files op)) full }
{}

/// An expire or a retraction is never refused of a collection that is within the limits.
pub fn only_a_put_is_refused()
    ensures expire { (files : List Loaded) (cutoff : ℤ) → IsWithin (tally files)
        → full_at files (Expire cutoff) ≡ None }
    ensures retract { (files : List Loaded) (name : List ℕ) → IsWithin (tally files)
        → full_at files (Retract name) ≡ None }
{}

/// A collection with as many files as it may hold refuses a file of one more name, and never for the number of its
/// files one whose name is held.
pub fn a_collection_of_most_files_takes_held_names()
    ensures new { (files : List Loaded) (file : Loaded) → length files ≡ MAX_FILES
        → All (DifferInName file) files
        → full_at files (Put file)
        ≡ Some (record { which = Files; held = MAX_FILES + 1; limit = MAX_FILES }) }
    ensures held { (files : List Loaded) (file : Loaded) (full : TooMany) →
        length files ≤ MAX_FILES → AllPairs DifferInName files
        → Any (λ (other : Loaded). other.name ≡ file.name) files
        → full_at files (Put file) ≡ Some full → full.which ≢ Files }
{}
