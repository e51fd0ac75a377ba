//! A file beside its run, so that a look-up finds it where it looks.

use crate::spacing::{Spacing, spacing_of};
use fm_base::{Arc, NoMemory};
use fm_model::Loaded;
use std::marker::Model;

/// A file, its run, and how its times lie. A clause sees the file alone.
#[derive(Drop)]
pub struct Placed {
    file: Arc<Loaded>,
    run: i64,
    spacing: Spacing,
}

impl Model for Placed {
    ghost use Rattle.std.specs.Prelude.{◌≡◌};
    ghost use Rattle.fm_model.specs.declared.loaded.Loaded.{Loaded as File};
    ghost use Rattle.fm_list.specs.Times.{Describes};

    ghost Value = { File };

    ghost view = { λ placed. placed.file };

    ghost invariant = { λ placed. (placed.run ≡ placed.file.run) × Describes placed.spacing placed.file.times };
}

impl Placed {
    ghost use Rattle.std.specs.Prelude.{◌≡◌, IfOk};
    ghost use Rattle.fm_list.specs.Times.{Describes};

    /// A file, whose times are looked through once.
    pub fn new(file: Arc<Loaded>) -> Placed
        ensures { result ≡ file }
    {
        let Loaded { run, times, .. } = file.get();
        let spacing = spacing_of(times.as_slice());
        Placed {
            run: *run,
            spacing,
            file,
        }
    }

    /// The file.
    pub fn get(&self) -> &Loaded
        ensures { result.now ≡ self.now }
    {
        self.file.get()
    }

    pub(crate) fn owner(&self) -> &Arc<Loaded>
        ensures { result.now ≡ self.now }
    {
        &self.file
    }

    pub(crate) fn run(&self) -> i64
        ensures { result ≡ self.now.run }
    {
        self.run
    }

    // How its times lie.
    pub(crate) fn spacing(&self) -> Spacing
        ensures { Describes result self.now.times }
    {
        self.spacing
    }

    /// One more owner of the file.
    pub fn share(&self) -> Result<Placed, NoMemory>
        ensures { IfOk result (λ other. other ≡ self.now) }
    {
        let file = self.file.share()?;
        Ok(Placed {
            file,
            run: self.run,
            spacing: self.spacing,
        })
    }
}
