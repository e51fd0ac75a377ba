//! What a reader believes of a made collection, each as the contract of a call that does nothing.
ghost use Rattle.std.specs.Prelude.{◌≡◌, ◌≢◌, ◌+◌, ◌*◌, ◌<◌, ◌≤◌, min, ℕ, None, Ok, Some};
ghost use Rattle.nc_model.specs.Stamp.{mark_of};
ghost use Rattle.fm_gen.specs.File.{made_file};
ghost use Rattle.fm_model.specs.declared.op.Op.TheVariants.{Put};
ghost use Rattle.fm_model.specs.Collection.{coll, full_at, tally};
ghost use Rattle.fm_model.specs.Load.{load_of};
ghost use Rattle.fm_model.specs.Prototype.{proto_of};
ghost use Rattle.srv_load.specs.Made.{files_of, held_file, load_proto, puts_of};
ghost use Rattle.srv_load.specs.Name.{made_name, made_site, run_time};
ghost use Rattle.srv_load.specs.Summary.{summary_of};

/// The name of each file has its run time as its mark, and no two files have one name.
#[tactic(auto, using(crate::proofs::NameLemmas::marks))]
pub fn a_made_name_has_its_run_time()
    ensures mark { (k : ℕ) → k < 400 → mark_of (made_name k) made_site.mark ≡ Some (run_time k) }
    ensures differ { (i j : ℕ) → i < 400 → j < 400 → i ≢ j → made_name i ≢ made_name j }
{}

/// A made file is never refused: file 0 is the prototype, each file is taken over it, and the collection has room for
/// it.
#[tactic(auto, using(crate::proofs::TakenLemmas::taken, crate::proofs::RoomLemmas::rooms))]
pub fn a_made_file_is_never_refused()
    ensures prototype { (seed : ℕ) → proto_of (made_file seed 0) made_site ≡ Ok load_proto }
    ensures taken { (seed k : ℕ) → k < 400
        → load_of (made_name k) (made_file seed k) load_proto ≡ Ok (held_file seed k) }
    ensures room { (seed k : ℕ) → k < 400 → full_at (coll (puts_of seed k)) (Put (held_file seed k)) ≡ None }
{}

/// The collection holds each file that was put, in their order: 65 times and 17,240 bytes for each.
#[tactic(auto, using(crate::proofs::RoomLemmas::held))]
pub fn a_made_collection_holds_its_files()
    ensures files { (seed n : ℕ) → n ≤ 400 → coll (puts_of seed n) ≡ files_of seed n }
    ensures much { (seed n : ℕ) → n ≤ 400
        → tally (coll (puts_of seed n)) ≡ record { files = n; rows = 65 * n; size = 17240 * n } }
{}

/// The rows that the line of `load` tells of n files: 6 n + 59 of the best time series, since a run begins six hours
/// after the other and has 65 hours; 65 of the first run; one of each run at the offset 0; and of the forecast at the
/// last run one of each of the last 11 runs.
#[tactic(auto, using(crate::proofs::ViewLemmas::counted_rows))]
pub fn rows_of_made_views_are_counted()
    ensures best { (seed n : ℕ) → 0 < n → n ≤ 400 → (summary_of seed n).best ≡ 6 * n + 59 }
    ensures run { (seed n : ℕ) → 0 < n → n ≤ 400 → (summary_of seed n).run ≡ 65 }
    ensures offset { (seed n : ℕ) → 0 < n → n ≤ 400 → (summary_of seed n).offset ≡ n }
    ensures forecast { (seed n : ℕ) → 0 < n → n ≤ 400 → (summary_of seed n).forecast ≡ min n 11 }
{}
