//! The rows of a page of valid times. The least run of a valid time's files tells whether one keeps a least offset.
ghost use Rattle.std.specs.Prelude.{◌≡◌, [], ◌∷◌, ◌++◌, All, OnOk, filter, length};
ghost use Rattle.std.specs.BTreeMap as tree;
ghost use Rattle.std.specs.List.{filter_map};
ghost use Rattle.std.specs.Option.{option_to_list};
ghost use Rattle.std.specs.Ordering.{int_cmp};
ghost use Rattle.fm_model.specs.Rows.{best_row};
ghost use Rattle.fm_edition.specs.Indexes as spec;
ghost use Rattle.fm_edition.specs.Latest as walk;
ghost use Rattle.fm_edition.specs.Least.{lies_after};

use crate::maps::entry::push_best;
use crate::maps::latest::Latest;
use crate::maps::page::Page;
use crate::maps::page_rows::{Oldest, PageRows};
use fm_base::{List, NoMemory};
use fm_list::keeps_least_offset;
use fm_model::Row;

// Adds the rows of a page, and each of its valid times with the least run of its files.
pub(crate) fn push_kept(
    rows: &mut List<Row>,
    oldest: &mut List<Oldest>,
    page: &Page,
) -> Result<(), NoMemory>
    requires { All spec.IsTimed page.now.entries }
    ensures rows { OnOk result (rows.new ≡ rows.old ++ filter_map spec.kept_row page.now.entries) }
    ensures oldest { OnOk result (oldest.new ≡ oldest.old ++ spec.oldest_runs page.now.entries) }
{
    for at in 0..page.len() {
        let (valid, files) = page.entry(at);
        push_best(rows, &files, valid, None)?;
        let run = files.oldest();
        oldest.push(Oldest { valid, run })?;
    }
    Ok(())
}

// Whether a valid time lies at least the least offset after the run beside it.
pub(crate) fn lies_after(time: &Oldest, least: Option<i64>) -> bool
    ensures { result ≡ lies_after least time.now }
{
    keeps_least_offset(least, time.run, time.valid)
}

// How many valid times of a page have a row with a least offset. No file is looked at, and of a stretch no valid time
// behind the first that keeps it.
pub(crate) fn count_early(kept: &PageRows, least: Option<i64>) -> usize
    ensures { result ≡ length (filter (lies_after least) kept.now.oldest) }
{
    let times = kept.oldest();
    let mut count = 0;
    let mut at = 0;
    while at < times.len() {
        if lies_after(&times[at], least) {
            let end = kept.end_of(at);
            count += end - at;
            at = end;
        } else {
            at += 1;
        }
    }
    count
}

// Adds the row of a valid time with a least offset, if there is one, where the run after the given one doesn't keep it.
// So the given run is the best where it does and has the valid time; else the files by the valid time are asked.
fn push_reached(
    rows: &mut List<Row>,
    latest: &mut Latest<'_>,
    page: &Page,
    valid: i64,
    least: Option<i64>,
) -> Result<(), NoMemory>
    requires timed { spec.IsTimed (valid, spec.found_in page.now valid) }
    requires leads { walk.Leads latest.old ((valid, spec.found_in page.now valid) ∷ []) }
    requires stops { walk.BeginLate least valid (walk.runs_beside latest.old.later.now) }
    ensures made { OnOk result (rows.new
        ≡ rows.old ++ option_to_list (best_row (spec.found_in page.now valid) least valid)) }
    ensures stays { walk.Stays latest.old latest.new }
{
    let run = latest.run;
    if keeps_least_offset(least, run, valid) {
        if let Some((file, index)) = latest.cell(valid) {
            return rows.push(Row {
                valid,
                run,
                file: file.share()?,
                index,
            });
        }
    }
    push_best(rows, &page.files(valid), valid, least)
}

// Adds the row of a valid time with a least offset, if there is one: where it lies that far after the run beside it,
// the least of its files.
fn push_one(
    rows: &mut List<Row>,
    latest: &mut Latest<'_>,
    page: &Page,
    time: &Oldest,
    least: Option<i64>,
) -> Result<(), NoMemory>
    requires timed { spec.IsTimed (time.now.valid, spec.found_in page.now time.now.valid) }
    requires oldest { time.now.run ≡ spec.oldest_run (spec.found_in page.now time.now.valid) }
    requires leads { walk.Leads latest.old ((time.now.valid, spec.found_in page.now time.now.valid) ∷ []) }
    ensures made { OnOk result (rows.new
        ≡ rows.old ++ option_to_list (best_row (spec.found_in page.now time.now.valid) least time.now.valid)) }
    ensures stays { walk.Stays latest.old latest.new }
{
    if !lies_after(time, least) {
        return Ok(());
    }
    let valid = time.valid;
    latest.pass(valid, least);
    push_reached(rows, latest, page, valid, least)
}

// Adds the rows of a page with a least offset.
pub(crate) fn push_early(
    rows: &mut List<Row>,
    latest: &mut Latest<'_>,
    page: &Page,
    oldest: &[Oldest],
    least: Option<i64>,
) -> Result<(), NoMemory>
    requires ordered { tree.IsOrdered int_cmp page.now }
    requires timed { All spec.IsTimed page.now.entries }
    requires oldest { oldest.now ≡ spec.oldest_runs page.now.entries }
    requires leads { walk.Leads latest.old page.now.entries }
    ensures made { OnOk result (rows.new ≡ rows.old ++ filter_map (spec.best_of_entry least) page.now.entries) }
    ensures stays { walk.Stays latest.old latest.new }
{
    for time in oldest {
        push_one(rows, latest, page, time, least)?;
    }
    Ok(())
}
