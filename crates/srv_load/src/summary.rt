//! The summary of a made collection.
ghost use Rattle.std.specs.Prelude.{◌≡◌, ◌<◌, ◌≤◌, ◌-◌, ◌++◌, IfOk, OnOk, codes};
ghost use Rattle.nc_model.specs.Instant.{instant_text_of};
ghost use Rattle.fm_edition.specs.Log.{held_of};
ghost use Rattle.srv_load.specs.Asked.{counted};
ghost use Rattle.srv_load.specs.Name as names;
ghost use Rattle.srv_load.specs.Summary as spec;

use crate::asking::{Counted, ask};
use crate::making::made_collection;
use crate::name::{STEP, put_run_time};
use fm_base::{Bytes, NoMemory};
use fm_model::ViewName;
use pub_look::Plain;
use std::alloc::Global;

/// How many files and times a collection holds, how many rows the best time series, the dataset of the first run, of
/// the offset 0 and of the forecast at the last run have, and the sum of the bytes of their data modulo 2^32.
#[derive(Clone, Copy)]
pub struct Summary {
    pub files: u32,
    pub rows: u32,
    pub best: u64,
    pub run: u64,
    pub offset: u64,
    pub forecast: u64,
    pub sum: u32,
}

// Asks for the best time series.
fn ask_best(alloc: Global, plain: &mut Plain) -> Result<Counted, NoMemory>
    ensures counted { IfOk result (λ found. found
        ≡ counted (held_of plain.old.proto plain.old.seen) spec.best_asked) }
    ensures same { OnOk result (held_of plain.new.proto plain.new.seen ≡ held_of plain.old.proto plain.old.seen) }
{
    ask(alloc, plain, ViewName::Best, b"load_best.ncd")
}

// Asks for the dataset of the run of file 0.
fn ask_run(alloc: Global, plain: &mut Plain) -> Result<Counted, NoMemory>
    ensures counted { IfOk result (λ found. found
        ≡ counted (held_of plain.old.proto plain.old.seen) spec.run_asked) }
    ensures same { OnOk result (held_of plain.new.proto plain.new.seen ≡ held_of plain.old.proto plain.old.seen) }
{
    let label = b"load_RUN_2020-01-01T00:00:00Z";
    ask(alloc, plain, ViewName::Run(0), label)
}

// Asks for the dataset of the offset 0.
fn ask_offset(alloc: Global, plain: &mut Plain) -> Result<Counted, NoMemory>
    ensures counted { IfOk result (λ found. found
        ≡ counted (held_of plain.old.proto plain.old.seen) spec.offset_asked) }
    ensures same { OnOk result (held_of plain.new.proto plain.new.seen ≡ held_of plain.old.proto plain.old.seen) }
{
    ask(alloc, plain, ViewName::Offset(0), b"load_Offset_0s")
}

// The label of the forecast at the run time of file k.
fn forecast_label(alloc: Global, k: u32) -> Result<Bytes, NoMemory>
    requires { k < 400 }
    ensures { IfOk result (λ label. label ≡ codes "load_ConstantForecast_" ++ instant_text_of (names.run_time k)) }
{
    let mut label = Bytes::copy_of(alloc, b"load_ConstantForecast_")?;
    put_run_time(alloc, k, &mut label)?;
    Ok(label)
}

// Asks for the dataset of the forecast at the run time of file k.
fn ask_forecast(alloc: Global, plain: &mut Plain, k: u32) -> Result<Counted, NoMemory>
    requires { k < 400 }
    ensures counted { IfOk result (λ found. found
        ≡ counted (held_of plain.old.proto plain.old.seen) (spec.forecast_asked k)) }
    ensures same { OnOk result (held_of plain.new.proto plain.new.seen ≡ held_of plain.old.proto plain.old.seen) }
{
    let label = forecast_label(alloc, k)?;
    let view = ViewName::Forecast(i64::from(STEP * k));
    let found = ask(alloc, plain, view, label.as_slice())?;
    Ok(found)
}

// The summary of a collection whose last file is file k.
#[tactic(auto, unfolding(crate::specs::Summary::summary_over))]
fn summary_over(alloc: Global, plain: &mut Plain, k: u32) -> Result<Summary, NoMemory>
    requires { k < 400 }
    ensures { IfOk result (λ summary. summary ≡ spec.summary_over (held_of plain.old.proto plain.old.seen) k) }
{
    let tally = plain.tally();
    let best = ask_best(alloc, plain)?;
    let run = ask_run(alloc, plain)?;
    let offset = ask_offset(alloc, plain)?;
    let forecast = ask_forecast(alloc, plain, k)?;
    let sum = best.sum.wrapping_add(run.sum);
    let sum = sum.wrapping_add(offset.sum);
    Ok(Summary {
        files: tally.files,
        rows: tally.rows,
        best: best.rows,
        run: run.rows,
        offset: offset.rows,
        forecast: forecast.rows,
        sum: sum.wrapping_add(forecast.sum),
    })
}

/// Makes the first files of a seed, puts them one after the other in a collection whose prototype is file 0, and reads
/// four of its views whole. A made file is never refused, so only memory may run out.
pub fn summarize(alloc: Global, seed: u32, files: u32) -> Result<Summary, NoMemory>
    requires some { 0 < files }
    requires few { files ≤ 400 }
    ensures { IfOk result (λ summary. summary ≡ spec.summary_of seed files) }
{
    let mut plain = made_collection(alloc, seed, files)?;
    let summary = summary_over(alloc, &mut plain, files - 1);
    drop(plain);
    summary
}
