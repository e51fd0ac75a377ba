//! What a reader believes of the definitions, each as the contract of a call that does nothing.
ghost use Rattle.std.specs.Prelude.{◌≢◌, ◌≤◌, [], length};
ghost use Rattle.fm_model.specs.declared.row.ViewName.{ViewName};
ghost use Rattle.fm_model.specs.Rows.{rows};
ghost use Rattle.fm_edition.specs.Held.{Held, IsEdition};
ghost use Rattle.fm_dataset.specs.Rows.{AreRows};

/// The rows of any view of an edition are rows that a dataset may have: there are at most 262,144, and each is of a
/// file that fits the prototype, of at most 3,221,225,472 bytes, with that file's run and the valid time at its index.
pub fn the_rows_of_an_edition_are_those_of_a_dataset()
    ensures few { (held : Held) (view : ViewName) → IsEdition held
        → length (rows held.files view) ≤ 262_144 }
    ensures rows { (held : Held) (view : ViewName) → IsEdition held → rows held.files view ≢ []
        → AreRows held.proto (rows held.files view) }
{}
