//! What a collection holds, at its limits and one past them.
#![tactic(auto, unfolding(crate::specs::Collection::full_of, crate::specs::Collection::tally))]

ghost use Rattle.std.specs.Prelude.{◌≡◌, [], ◌∷◌, None, Some};
ghost use Rattle.fm_model.specs.declared.full.Which.TheVariants.{Files, Rows, Size};
ghost use Rattle.fm_model.specs.Collection.{full_of, tally};
ghost use Rattle.fm_model.specs.Example.{midnight, morning};

/// A collection may hold just as many as the limits say, and not one more; files are looked at first.
pub fn a_collection_is_full_one_past_a_limit()
    ensures at_the_limits { full_of (record { files = 4096; rows = 262144; size = 3221225472 })
        ≡ None }
    ensures files { full_of (record { files = 4097; rows = 262145; size = 0 })
        ≡ Some (record { which = Files; held = 4097; limit = 4096 }) }
    ensures rows { full_of (record { files = 4096; rows = 262145; size = 3221225473 })
        ≡ Some (record { which = Rows; held = 262145; limit = 262144 }) }
    ensures size { full_of (record { files = 4096; rows = 262144; size = 3221225473 })
        ≡ Some (record { which = Size; held = 3221225473; limit = 3221225472 }) }
{}

/// A collection is counted by its files, the times of all of them, and the bytes of all of them.
pub fn a_collection_is_counted()
    ensures { tally (record midnight { content = 67 ∷ 68 ∷ 70 ∷ 1 ∷ [] } ∷ morning ∷ [])
        ≡ record { files = 2; rows = 6; size = 4 } }
{}
