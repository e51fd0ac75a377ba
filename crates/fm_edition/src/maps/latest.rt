//! The last run that keeps a least offset, on a walk through rising valid times.
ghost use Rattle.std.specs.Prelude.{◌≤◌, ◌∷◌, List as Items, drop, length};
ghost use Rattle.fm_model.specs.declared.loaded.Loaded.{Loaded as File};
ghost use Rattle.fm_edition.specs.Latest as spec;

use crate::maps::files::Files;
use fm_base::Arc;
use fm_list::keeps_least_offset;
use fm_model::Loaded;

/// A run, and its files.
#[derive(Drop)]
pub(crate) struct RunFiles<'a> {
    pub run: i64,
    pub files: Files<'a>,
}

/// A run, its files, and the later runs. The next time that is asked for may stand at the index `near` in a file of the
/// run, and the first at `first`. No clause sees the two.
#[derive(Drop)]
pub(crate) struct Latest<'a> {
    pub run: i64,
    pub files: Files<'a>,
    pub later: &'a [RunFiles<'a>],
    pub first: usize,
    pub near: usize,
}

// How many of some rising runs keep the least offset, before the first that doesn't.
fn passed(runs: &[RunFiles<'_>], valid: i64, least: Option<i64>) -> usize
    ensures within { result ≤ length runs.now }
    ensures stops { spec.BeginLate least valid (spec.runs_beside (drop result runs.now)) }
{
    let mut count = 0;
    while count < runs.len() && keeps_least_offset(least, runs[count].run, valid) {
        count += 1;
    }
    count
}

impl<'a> Latest<'a> {
    ghost use Rattle.std.specs.Prelude.{◌≡◌, IfSome, Some};
    ghost use Rattle.fm_model.specs.Cell.{cell};
    ghost use Rattle.fm_list.specs.Selected.{AreSound};

    // The first of some runs.
    pub(crate) fn first_of(own: &RunFiles<'a>, later: &'a [RunFiles<'a>]) -> Latest<'a>
        ensures { (held : Items File) → spec.AreRuns held (own.now ∷ later.now) → spec.IsLatest held result }
    {
        Latest {
            run: own.run,
            files: own.files.again(),
            later,
            first: 0,
            near: 0,
        }
    }

    // Goes on to the last run before the first that doesn't keep the least offset.
    pub(crate) fn pass(&mut self, valid: i64, least: Option<i64>)
        ensures stays { spec.Stays self.old self.new }
        ensures stops { spec.BeginLate least valid (spec.runs_beside self.new.later.now) }
    {
        let later = self.later;
        let count = passed(later, valid, least);
        if count > 0 {
            let own = &later[count - 1];
            self.run = own.run;
            self.files = own.files.again();
            self.later = &later[count..];
            self.near = self.first;
        }
    }

    // The last file of the run with a valid time, and the time's index in it.
    pub(crate) fn cell(&mut self, valid: i64) -> Option<(&'a Arc<Loaded>, u32)>
        requires { AreSound self.old.files }
        ensures found { IfSome result (λ found. cell self.old.files self.old.run valid ≡ Some (found.0.now, found.1)) }
        ensures stays { spec.Stays self.old self.new }
    {
        let (file, index) = self.files.cell_near(self.run, valid, self.near)?;
        let at = index as usize;
        let first = if self.near == self.first {
            at
        } else {
            self.first
        };
        self.first = first;
        self.near = at.saturating_add(1);
        Some((file, index))
    }
}
