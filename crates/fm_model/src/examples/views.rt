//! The rows of two runs that overlap: midnight's has 00Z, 06Z and 12Z, and the morning's 06Z, 12Z and 18Z.
#![tactic(auto, unfolding(crate::proofs::Computing::collections, crate::proofs::Computing::views))]

ghost use Rattle.std.specs.Prelude.{◌≡◌, [], ◌∷◌, codes, pos, negsuc};
ghost use Rattle.fm_model.specs.declared.op.Op.TheVariants.{Put, Expire, Retract};
ghost use Rattle.fm_model.specs.declared.row.ViewName.TheVariants.{Best, BestFrom, Run, Offset, Forecast};
ghost use Rattle.fm_model.specs.Collection.{coll};
ghost use Rattle.fm_model.specs.Example.{midnight, morning, midnight_again, midnight_part, row_of};
ghost use Rattle.fm_model.specs.Rows.{rows};

/// A later run has the times that both runs have, whichever file came first; the time that the old run alone has stays.
pub fn a_later_run_wins_whatever_came_first()
    ensures in_order { rows (coll (Put midnight ∷ Put morning ∷ [])) Best
        ≡ row_of midnight (pos 0) 0 ∷ row_of morning (pos 21600) 0
        ∷ row_of morning (pos 43200) 1 ∷ row_of morning (pos 64800) 2 ∷ [] }
    ensures other_order { rows (coll (Put morning ∷ Put midnight ∷ [])) Best
        ≡ row_of midnight (pos 0) 0 ∷ row_of morning (pos 21600) 0
        ∷ row_of morning (pos 43200) 1 ∷ row_of morning (pos 64800) 2 ∷ [] }
{}

/// A file that comes again replaces the old one: a time that only the old one had is gone.
pub fn a_file_that_comes_again_drops_old_times()
    ensures best { rows (coll (Put midnight ∷ Put midnight_again ∷ [])) Best
        ≡ row_of midnight_again (pos 0) 0 ∷ row_of midnight_again (pos 21600) 1 ∷ [] }
    ensures run { rows (coll (Put midnight ∷ Put midnight_again ∷ [])) (Run (pos 0))
        ≡ row_of midnight_again (pos 0) 0 ∷ row_of midnight_again (pos 21600) 1 ∷ [] }
{}

/// An expire keeps a run that equals its cutoff.
pub fn an_expire_keeps_the_run_at_its_cutoff()
    ensures { coll (Put midnight ∷ Put morning ∷ Expire (pos 21600) ∷ []) ≡ morning ∷ [] }
{}

/// A retraction takes out the file of its name alone: another file of the same run stays, and an older run shows again
/// what the file hid. A name that no file has changes nothing.
pub fn a_retraction_takes_out_one_file()
    ensures same_run { coll (Put midnight ∷ Put midnight_part ∷ Retract (codes "gfs_0000.nc") ∷ [])
        ≡ midnight_part ∷ [] }
    ensures shown_again { rows
        (coll (Put midnight ∷ Put morning ∷ Retract (codes "gfs_0600.nc") ∷ [])) Best
        ≡ row_of midnight (pos 0) 0 ∷ row_of midnight (pos 21600) 1
        ∷ row_of midnight (pos 43200) 2 ∷ [] }
    ensures not_held { coll (Put midnight ∷ Put morning ∷ Retract (codes "gfs_06") ∷ [])
        ≡ midnight ∷ morning ∷ [] }
{}

/// With a least offset the best time series takes the greatest run that is old enough, an offset just as long included.
/// A valid time that no run has early enough is left out.
pub fn a_least_offset_takes_runs_that_are_old_enough()
    ensures six_hours { rows (midnight ∷ morning ∷ []) (BestFrom (pos 21600))
        ≡ row_of midnight (pos 21600) 1 ∷ row_of morning (pos 43200) 1
        ∷ row_of morning (pos 64800) 2 ∷ [] }
    ensures a_second_more { rows (midnight ∷ morning ∷ []) (BestFrom (pos 21601))
        ≡ row_of midnight (pos 43200) 2 ∷ row_of morning (pos 64800) 2 ∷ [] }
    ensures past_all { rows (midnight ∷ morning ∷ []) (BestFrom (pos 43201)) ≡ [] }
    ensures before_all { rows (midnight ∷ morning ∷ []) (BestFrom (negsuc 0))
        ≡ rows (midnight ∷ morning ∷ []) Best }
{}

/// An offset takes one row from each run that has the time so long after it, and none at an offset that no run has.
pub fn an_offset_takes_a_row_from_each_run()
    ensures none { rows (midnight ∷ morning ∷ []) (Offset (negsuc 3599)) ≡ [] }
    ensures zero { rows (midnight ∷ morning ∷ []) (Offset (pos 0))
        ≡ row_of midnight (pos 0) 0 ∷ row_of morning (pos 21600) 0 ∷ [] }
    ensures six_hours { rows (midnight ∷ morning ∷ []) (Offset (pos 21600))
        ≡ row_of midnight (pos 21600) 1 ∷ row_of morning (pos 43200) 1 ∷ [] }
{}

/// A forecast time takes one row from each run that has it.
pub fn a_forecast_time_takes_a_row_from_each_run()
    ensures { rows (midnight ∷ morning ∷ []) (Forecast (pos 43200))
        ≡ row_of midnight (pos 43200) 2 ∷ row_of morning (pos 43200) 1 ∷ [] }
{}
