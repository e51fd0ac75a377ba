//! The maps of an edition.
ghost use Rattle.std.specs.Prelude.{◌≡◌, [], IfOk};
ghost use Rattle.fm_model.specs.Rising.{Rises};
ghost use Rattle.fm_list.specs.Change.{added};
ghost use Rattle.fm_edition.specs.Indexes as spec;
ghost use Rattle.fm_edition.specs.Steps.{AreDone, HaveGone};

use crate::instants::instants_in;
use crate::maps::Edition;
use crate::maps::best::{Best, best_after, best_of};
use crate::maps::pages::{Change, Pages, pages_after};
use fm_base::{List, NoMemory};
use fm_list::change::changed;
use fm_list::{By, Placed};
use fm_model::Op;
use std::alloc::Global;
use std::collections::BTreeMap;

/// The files by run, by valid time and by the code of their name, and the rows of the best time series.
#[derive(Drop)]
pub(crate) struct Index {
    pub by_run: Pages,
    pub by_time: Pages,
    pub by_name: Pages,
    pub best: Best,
}

// The maps of no files.
pub(crate) fn no_maps(alloc: Global) -> Result<Index, NoMemory>
    ensures { IfOk result (spec.AreMaps []) }
{
    let best = best_of(alloc, BTreeMap::new(alloc))?;
    Ok(Index {
        by_run: BTreeMap::new(alloc),
        by_time: BTreeMap::new(alloc),
        by_name: BTreeMap::new(alloc),
        best,
    })
}

/// An operation, the files that it takes out, and those that it adds.
#[derive(Clone, Copy)]
pub(crate) struct Exchange<'a> {
    pub op: &'a Op,
    pub went: &'a [Placed],
    pub added: &'a [Placed],
}

// The pages after an operation that touches some instants.
fn after_change(
    alloc: Global,
    pages: &Pages,
    by: By,
    touched: &[i64],
    exchange: &Exchange<'_>,
) -> Result<Pages, NoMemory>
    requires rise { Rises touched.now }
    requires added { exchange.now.added.now ≡ added exchange.now.op.now }
    requires ordered { spec.AreOrdered pages.now }
    requires gone { HaveGone exchange.now.went.now exchange.now.op.now pages.now }
    ensures { IfOk result (AreDone by touched.now exchange.now.op.now pages.now) }
{
    let Exchange { op, went, added } = *exchange;
    let own = instants_in(alloc, by, added)?;
    let change = Change {
        by,
        op,
        went,
        added,
        touched,
        own: own.as_slice(),
    };
    pages_after(alloc, pages, &change)
}

// The pages after an operation that takes out and adds some files.
fn map_after(
    alloc: Global,
    pages: &Pages,
    by: By,
    changed: &[Placed],
    exchange: &Exchange<'_>,
) -> Result<Pages, NoMemory>
    requires added { exchange.now.added.now ≡ added exchange.now.op.now }
    requires ordered { spec.AreOrdered pages.now }
    requires gone { HaveGone exchange.now.went.now exchange.now.op.now pages.now }
    ensures { IfOk result (AreDone by (spec.instants by changed.now) exchange.now.op.now pages.now) }
{
    let touched = instants_in(alloc, by, changed)?;
    after_change(alloc, pages, by, touched.as_slice(), exchange)
}

impl Edition {
    ghost use Rattle.fm_model.specs.Collection.{after_op};
    ghost use Rattle.fm_list.specs.Change as change;
    ghost use Rattle.fm_edition.specs.Log.{CanFollow};

    // The maps after an operation, where `changed` are the files that it takes out and those that it adds.
    fn maps_after(
        &self,
        alloc: Global,
        changed: &[Placed],
        exchange: &Exchange<'_>,
    ) -> Result<Index, NoMemory>
        requires went { exchange.now.went.now ≡ change.gone self.now.files exchange.now.op.now }
        requires added { exchange.now.added.now ≡ change.added exchange.now.op.now }
        requires changed { changed.now ≡ change.changed self.now.files exchange.now.op.now }
        requires can { CanFollow self.now.proto self.now.files exchange.now.op.now }
        ensures { IfOk result (λ index. spec.AreMaps (after_op self.now.files exchange.now.op.now) index) }
    {
        let times = instants_in(alloc, By::Time, changed)?;
        let by_run = map_after(alloc, &self.index.by_run, By::Run, changed, exchange)?;
        let by_time = after_change(
            alloc,
            &self.index.by_time,
            By::Time,
            times.as_slice(),
            exchange,
        )?;
        let by_name = map_after(alloc, &self.index.by_name, By::Name, changed, exchange)?;
        let pages = best_after(alloc, &self.index.best.pages, &by_time, times.as_slice())?;
        let best = best_of(alloc, pages)?;
        Ok(Index {
            by_run,
            by_time,
            by_name,
            best,
        })
    }

    // The maps after an operation that can be done, where `gone` are the files that it takes out.
    pub(crate) fn index_after(
        &self,
        alloc: Global,
        gone: List<Placed>,
        op: &Op,
    ) -> Result<Index, NoMemory>
        requires gone { gone ≡ change.gone self.now.files op.now }
        requires can { CanFollow self.now.proto self.now.files op.now }
        ensures { IfOk result (λ index. spec.AreMaps (after_op self.now.files op.now) index) }
    {
        let count = gone.len();
        let changed = changed(gone, op)?;
        let (went, added) = changed.as_slice().split_at(count);
        self.maps_after(alloc, changed.as_slice(), &Exchange { op, went, added })
    }
}
