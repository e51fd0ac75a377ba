//! The files of a name, among those of its code.
ghost use Rattle.std.specs.Prelude.{◌≡◌, List as Items};
ghost use Rattle.fm_model.specs.declared.loaded.Loaded.{Loaded as File};
ghost use Rattle.fm_list.specs.declared.by.By.TheVariants.{Name};
ghost use Rattle.fm_list.specs.Code as code;
ghost use Rattle.fm_list.specs.Selected.{part};
ghost use Rattle.fm_edition.specs.Indexes as spec;
ghost use Rattle.fm_edition.specs.Pieces.{IsNear};

use crate::maps::files::Files;
use crate::maps::pages::{Pages, files_at};
use fm_list::code_of;
use fm_model::Op;

// The files of a name's code.
pub(crate) fn files_named<'a>(by_name: &'a Pages, name: &[u8]) -> Files<'a>
    ensures { (files : Items File) → spec.AreParts Name files by_name.now
        → result ≡ part Name files (code.code_of name.now) }
{
    files_at(by_name, code_of(name))
}

// The files among which those are that an operation on one name takes out.
pub(crate) fn near<'a>(by_name: &'a Pages, op: &Op) -> Files<'a>
    ensures { (files : Items File) → spec.AreParts Name files by_name.now → IsNear files op.now result }
{
    match op {
        Op::Put(file) => files_named(by_name, file.get().name.as_slice()),
        Op::Expire(_) => Files::of(&[]),
        Op::Retract(name) => files_named(by_name, name.as_slice()),
    }
}
