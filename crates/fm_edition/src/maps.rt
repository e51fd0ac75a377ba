//! An edition over ordered maps.
ghost use Rattle.std.specs.Prelude.{◌≡◌, [], IfOk, IfSome, IsNone, None, Some, length};
ghost use Rattle.std.specs.List.{filter_map};
ghost use Rattle.fm_base.specs.Answer.{Answers};
ghost use Rattle.fm_model.specs.Cell.{best, cell, runs_of, times_of, times_of_run};
ghost use Rattle.fm_model.specs.Collection.{full_at, holds, holds_older, tally};
ghost use Rattle.fm_model.specs.Rows.{best_row};
ghost use Rattle.fm_model.specs.Site.{IsPrototype};
ghost use Rattle.fm_list.specs.Change as taken;
ghost use Rattle.fm_edition.specs.Held.{held_after, next_or_full, IsEdition, OpFits};
ghost use Rattle.fm_edition.specs.Log.{CanFollow};

mod best;
mod by_run;
mod early;
mod entry;
mod file_list;
pub(crate) mod files;
mod index;
mod keeping;
mod latest;
mod named;
mod page;
mod page_rows;
mod pages;
mod roll;
mod shared;
mod stretches;
mod walk;
mod wanted;

use crate::counting;
use files::Files;
use fm_base::{Arc, Fail, List, NoMemory};
use fm_list::Placed;
use fm_model::{Full, Loaded, Op, Proto, Tally};
use fm_rows::Rows;
use index::{Index, no_maps};
use named::{files_named, near};
use roll::Roll;
use std::alloc::Global;
use std::marker::Model;

/// The files that a collection holds at one moment, over its prototype. It never changes.
#[derive(Drop)]
pub struct Edition {
    proto: Arc<Proto>,
    files: Roll,
    tally: Tally,
    index: Index,
}

impl Model for Edition {
    ghost use Rattle.fm_edition.specs.Held.{Held};
    ghost use Rattle.fm_edition.specs.Indexes.{IsIndexed};

    ghost Value = { Held };

    ghost view = { λ edition. record { proto = edition.proto; files = edition.files } };

    ghost invariant = { λ edition. IsIndexed (record { proto = edition.proto; files = edition.files })
        edition.tally edition.index };
}

impl Edition {
    /// The edition without files.
    pub fn empty(alloc: Global, proto: Arc<Proto>) -> Result<Edition, NoMemory>
        requires { IsPrototype proto }
        ensures { IfOk result (λ edition. edition ≡ record { proto = proto; files = [] }) }
    {
        let index = no_maps(alloc)?;
        Ok(Edition {
            proto,
            files: Roll::new(alloc),
            tally: counting::nothing(),
            index,
        })
    }

    /// The edition after an operation, or what there would be too many of. This edition stays as it is, and the two
    /// share the files.
    pub fn after(&self, alloc: Global, op: &Op) -> Result<Edition, Fail<Full>>
        requires { OpFits self.now.proto op.now }
        ensures { Answers (next_or_full self.now op.now) result }
    {
        if let Some(full) = self.full_at(op) {
            return Err(Fail::Fault(full));
        }
        let gone = self.gone(alloc, op)?;
        Ok(self.follow(alloc, gone, op)?)
    }

    // The edition after an operation that can be done, where `gone` are the files that it takes out.
    fn follow(&self, alloc: Global, gone: List<Placed>, op: &Op) -> Result<Edition, NoMemory>
        requires can { CanFollow self.now.proto self.now.files op.now }
        requires gone { gone ≡ taken.gone self.now.files op.now }
        ensures { IfOk result (λ next. next ≡ held_after self.now op.now) }
    {
        let proto = self.proto.share()?;
        let tally = counting::tally_after(self.tally, &Files::of(gone.as_slice()), op);
        let files = self.files.after(alloc, gone.as_slice(), op)?;
        let index = self.index_after(alloc, gone, op)?;
        Ok(Edition {
            proto,
            files,
            tally,
            index,
        })
    }

    // The files that an operation takes out.
    fn gone(&self, alloc: Global, op: &Op) -> Result<List<Placed>, NoMemory>
        ensures { IfOk result (λ gone. gone ≡ taken.gone self.now.files op.now) }
    {
        match op {
            Op::Put(_) => near(&self.index.by_name, op).gone(alloc, op),
            Op::Expire(_) => self.files.all().gone(alloc, op),
            Op::Retract(_) => near(&self.index.by_name, op).gone(alloc, op),
        }
    }

    /// What there would be too many of after an operation, the first of files, times and bytes.
    pub fn full_at(&self, op: &Op) -> Option<Full>
        ensures { result ≡ full_at self.now.files op.now }
    {
        counting::full_after(self.tally, &near(&self.index.by_name, op), op)
    }

    /// How much is held.
    pub fn tally(&self) -> Tally
        ensures { result ≡ tally self.now.files }
    {
        self.tally
    }

    /// Whether a held file is of a run before the cutoff, in seconds from the collection's epoch.
    pub fn older_than(&self, cutoff: i64) -> bool
        ensures { result ≡ holds_older self.now.files cutoff }
    {
        self.files.has_older(cutoff)
    }

    /// Whether a held file has this name.
    pub fn holds(&self, name: &[u8]) -> bool
        ensures { result ≡ holds self.now.files name.now }
    {
        files_named(&self.index.by_name, name).has_name(name)
    }

    /// The held runs, each once, rising, in seconds from the collection's epoch.
    pub fn runs(&self, alloc: Global) -> Result<List<i64>, NoMemory>
        ensures { IfOk result (λ runs. runs ≡ runs_of self.now.files) }
    {
        walk::keys_of(alloc, &self.index.by_run)
    }

    /// The valid times of a run's held files, each once, rising, in seconds from the collection's epoch.
    pub fn times_of(&self, alloc: Global, run: i64) -> Result<List<i64>, NoMemory>
        ensures { IfOk result (λ times. times ≡ times_of_run self.now.files run) }
    {
        pages::files_at(&self.index.by_run, run).times_of(alloc, run)
    }

    /// The last held file of a run with a valid time, and the time's index in it. `None` where there is no such file.
    pub fn cell(&self, run: i64, valid: i64) -> Option<(&Arc<Loaded>, u32)>
        ensures found { IfSome result (λ found. cell self.now.files run valid ≡ Some (found.0.now, found.1)) }
        ensures none { IsNone result → cell self.now.files run valid ≡ None }
    {
        pages::files_at(&self.index.by_time, valid).cell_of(run, valid)
    }

    /// The greatest run that has a valid time and, where a least offset is given, lies at least that many seconds
    /// before it. `None` where there is no such run.
    pub fn best_run(&self, valid: i64, least: Option<i64>) -> Option<i64>
        ensures { result ≡ best self.now.files valid least }
    {
        pages::files_at(&self.index.by_time, valid).best(valid, least)
    }

    /// One row for each valid time that has a best run, from that run. Where all rows that the edition keeps keep the
    /// least offset, they are shared as they are. Else none is made of a page of valid times whose rows keep it.
    pub fn best_rows(&self, alloc: Global, least: Option<i64>) -> Result<Arc<Rows>, NoMemory>
        ensures { IfOk result (λ rows.
            rows ≡ filter_map (best_row self.now.files least) (times_of self.now.files)) }
    {
        best::best_rows(
            alloc,
            &self.index.by_run,
            &self.index.by_time,
            &self.index.best,
            least,
        )
    }

    /// How many valid times have a best run.
    pub fn best_count(&self, least: Option<i64>) -> usize
        ensures { result ≡ length (filter_map (best_row self.now.files least) (times_of self.now.files)) }
    {
        best::best_count(&self.index.by_time, &self.index.best.pages, least)
    }

    /// The prototype, and what every edition keeps.
    pub fn proto(&self) -> &Arc<Proto>
        ensures proto { result.now ≡ self.now.proto }
        ensures sound { IsEdition self.now }
    {
        &self.proto
    }
}
