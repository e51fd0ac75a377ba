//! The files that are published.
ghost use Rattle.std.specs.Prelude.{◌≡◌, IfOk, IfSome};
ghost use Rattle.fm_model.specs.Load.{Fits};

use crate::collection::{described, loaded};
use fm_base::{Arc, NoMemory};
use fm_model::{Loaded, Proto};
use pub_snap::Name;
use row_text::File;
use std::alloc::Global;
use std::marker::{Model, PhantomData};

/// The file of the prototype and, by the marks in their names, of all runs.
pub const SAMPLE: &str = "A.nc";

/// The first run, the beginning of 2024, from the epoch of the collection.
pub const FIRST_RUN: i64 = 126_230_400;

/// The seconds between two runs.
pub const SIX_HOURS: i64 = 21_600;

/// The names of four files, of one run each.
pub const NAMES: [&[u8]; 4] = [
    b"gfs_20240101_0000.nc",
    b"gfs_20240101_0600.nc",
    b"gfs_20240101_1200.nc",
    b"gfs_20240101_1800.nc",
];

/// The files of four runs with the same valid times.
#[derive(Drop)]
pub struct Runs<N: Name> {
    first: Arc<Loaded>,
    second: Arc<Loaded>,
    third: Arc<Loaded>,
    fourth: Arc<Loaded>,
    of: PhantomData<N>,
}

impl<N: Name> Model for Runs<N> {
    ghost use Rattle.std.specs.Prelude.{◌∷◌, [], List};
    ghost use Rattle.fm_model.specs.declared.loaded.Loaded.{Loaded as File};
    ghost use Rattle.fm_model.specs.Load.{Fits};

    ghost Value = { List File };

    ghost view = { λ files. files.first ∷ files.second ∷ files.third ∷ files.fourth ∷ [] };

    ghost invariant = { λ files. Fits files.first N.proto × Fits files.second N.proto × Fits files.third N.proto
        × Fits files.fourth N.proto };
}

impl<N: Name> Runs<N> {
    /// The files over a prototype. `None` where one isn't taken, or memory runs out.
    pub fn of(alloc: Global, files: &[File], proto: &Proto) -> Option<Runs<N>>
        requires { proto.now ≡ N.proto }
    {
        Some(Runs {
            first: sample(alloc, files, NAMES[0], proto)?,
            second: sample(alloc, files, NAMES[1], proto)?,
            third: sample(alloc, files, NAMES[2], proto)?,
            fourth: sample(alloc, files, NAMES[3], proto)?,
            of: PhantomData,
        })
    }

    /// The file of this number.
    pub fn file(&self, number: u64) -> Result<Arc<Loaded>, NoMemory>
        ensures { IfOk result (λ file. Fits file N.proto) }
    {
        match number {
            0 => self.first.share(),
            1 => self.second.share(),
            2 => self.third.share(),
            _ => self.fourth.share(),
        }
    }
}

// The sample as the file of a run, by the mark in its name.
fn sample(alloc: Global, files: &[File], name: &[u8], proto: &Proto) -> Option<Arc<Loaded>>
    ensures { IfSome result (λ file. Fits file proto.now) }
{
    loaded(alloc, name, described(alloc, files, SAMPLE)?, proto)
}
