//! The files by an instant, as they stand in a page.

use crate::maps::files::Files;
use crate::maps::roll::Roll;
use crate::maps::shared::Shared;
use fm_base::NoMemory;
use fm_list::Placed;
use std::alloc::Global;
use std::marker::Model;
use std::slice::from_ref;

// A file alone, or several files, which pages share.
#[derive(Drop)]
enum Form {
    One(Placed),
    Many(Shared<Roll>),
}

/// The files by an instant. A file alone stands here itself, so that a walk through many instants waits for no list
/// elsewhere. A clause sees the list.
#[derive(Drop)]
pub(crate) struct FileList {
    form: Form,
}

impl Model for FileList {
    ghost use Rattle.std.specs.Prelude.{List};
    ghost use Rattle.fm_model.specs.declared.loaded.Loaded.{Loaded as File};
    ghost use Rattle.fm_edition.specs.FileList.{files_in};

    ghost Value = { List File };

    ghost view = { λ list. files_in list.form };
}

impl FileList {
    ghost use Rattle.std.specs.Prelude.{◌≡◌, IfOk};

    // The list of these files.
    pub(crate) fn new(alloc: Global, roll: Roll) -> Result<FileList, NoMemory>
        ensures { IfOk result (λ list. list ≡ roll) }
    {
        let form = match roll.alone() {
            Ok(file) => Form::One(file),
            Err(roll) => Form::Many(Shared::new(alloc, roll)?),
        };
        Ok(FileList { form })
    }

    // One more owner of the files.
    pub(crate) fn share(&self) -> Result<FileList, NoMemory>
        ensures { IfOk result (λ list. list ≡ self.now) }
    {
        let form = match &self.form {
            Form::One(file) => Form::One(file.share()?),
            Form::Many(roll) => Form::Many(roll.clone()?),
        };
        Ok(FileList { form })
    }

    // The files, for a look-up.
    pub(crate) fn all(&self) -> Files<'_>
        ensures { result ≡ self.now }
    {
        match &self.form {
            Form::One(file) => Files::of(from_ref(file)),
            Form::Many(roll) => roll.get().all(),
        }
    }
}
