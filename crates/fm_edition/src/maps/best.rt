//! The rows of the best time series, kept page by page, so that many replies share them.
ghost use Rattle.std.specs.Prelude.{◌≡◌, ◌≢◌, ◌<◌, ◌≤◌, ◌++◌, ◌^◌, ℤ, All, IfOk, IsTrue, OnOk, None, Some, false, if◌then◌else◌, length, take, true};
ghost use Rattle.std.specs.BTreeMap as tree;
ghost use Rattle.std.specs.List.{filter_map};
ghost use Rattle.std.specs.Ordering.{int_cmp, int_eq};
ghost use Rattle.fm_edition.specs.Indexes as spec;
ghost use Rattle.fm_edition.specs.Latest as walk;
ghost use Rattle.fm_edition.specs.Least.{KeepLeast};

use crate::maps::early::{count_early, push_early, push_kept};
use crate::maps::keeping::push_keeping;
use crate::maps::latest::Latest;
use crate::maps::page::Page;
use crate::maps::page_rows::PageRows;
use crate::maps::pages::{Pages, page_of};
use crate::maps::shared::Shared;
use crate::maps::walk::{each_one, runs_in};
use fm_base::{Arc, List, NoMemory};
use fm_rows::Rows;
use std::alloc::Global;
use std::collections::BTreeMap;

/// The rows of each page by its number.
pub(crate) type RowPages = BTreeMap<i64, Shared<PageRows>>;

/// The rows of each page of valid times, and those of all pages, which many replies share as they are.
#[derive(Drop)]
pub(crate) struct Best {
    pub pages: RowPages,
    pub rows: Arc<Rows>,
}

// What is kept of a page, for many to share.
fn kept_of(alloc: Global, page: &Page) -> Result<Shared<PageRows>, NoMemory>
    requires { All spec.IsTimed page.now.entries }
    ensures { IfOk result (λ kept. kept ≡ spec.page_rows page.now) }
{
    let items = Vec::with_capacity(alloc, page.len())?;
    let mut rows = List { items };
    let items = Vec::with_capacity(alloc, page.len())?;
    let mut oldest = List { items };
    push_kept(&mut rows, &mut oldest, page)?;
    let kept = PageRows::new(alloc, rows, oldest, each_one(page))?;
    Shared::new(alloc, kept)
}

// Makes the rows of the page of a number anew. Where there is no such page, there are no rows.
fn set_rows(alloc: Global, best: &mut RowPages, pages: &Pages, number: i64) -> Result<(), NoMemory>
    requires best { tree.IsOrdered int_cmp best.old }
    requires pages { spec.AreOrdered pages.now }
    requires timed { All spec.IsTimed (spec.entries_of pages.now) }
    ensures ordered { OnOk result (tree.IsOrdered int_cmp best.new) }
    ensures set { OnOk result ((other : ℤ) → tree.get int_cmp best.new other
        ≡ if int_eq number other then spec.rows_at pages.now number else tree.get int_cmp best.old other) }
{
    match pages.get(&number) {
        Some(page) => {
            let rows = kept_of(alloc, page.get())?;
            best.insert(number, rows)?;
        }
        None => {
            best.remove(&number);
        }
    }
    Ok(())
}

// Whether a page differs from that of the instant before an index.
fn begins_page(touched: &[i64], at: usize, number: i64) -> bool
    requires { at ≤ length touched.now }
    ensures { result ≡ false → spec.touches (take at touched.now) number ≡ true }
{
    at == 0 || page_of(touched[at - 1]) != number
}

// The rows of each page, where only the pages of some rising instants have changed.
pub(crate) fn best_after(
    alloc: Global,
    best: &RowPages,
    pages: &Pages,
    touched: &[i64],
) -> Result<RowPages, NoMemory>
    requires best { tree.IsOrdered int_cmp best.now }
    requires pages { spec.AreOrdered pages.now }
    requires timed { All spec.IsTimed (spec.entries_of pages.now) }
    requires same { (number : ℤ) → spec.touches touched.now number ≡ false
        → tree.get int_cmp best.now number ≡ spec.rows_at pages.now number }
    ensures { IfOk result (λ next. spec.AreBest pages.now next) }
{
    let mut next = best.clone()?;
    let mut at = 0;
    while at < touched.len() {
        let number = page_of(touched[at]);
        if begins_page(touched, at, number) {
            set_rows(alloc, &mut next, pages, number)?;
        }
        at += 1;
    }
    Ok(next)
}

// The rows that are kept of a page.
fn kept_page<'a>(best: &'a RowPages, number: &i64) -> &'a PageRows
    requires { tree.get int_cmp best.now number.now ≢ None }
    ensures { tree.get int_cmp best.now number.now ≡ Some result.now }
{
    match best.get(number) {
        Some(rows) => rows.get(),
        None => unreachable!(),
    }
}

// Adds the rows of a page with a least offset. Where the kept rows keep it, or no other file can take the place of one
// that doesn't, those that keep it are shared.
fn push_from(
    alloc: Global,
    rows: &mut Rows,
    latest: &mut Latest<'_>,
    kept: &PageRows,
    page: &Page,
    least: Option<i64>,
) -> Result<(), NoMemory>
    requires kept { kept.now ≡ spec.page_rows page.now }
    requires ordered { tree.IsOrdered int_cmp page.now }
    requires timed { All spec.IsTimed page.now.entries }
    requires leads { walk.Leads latest.old page.now.entries }
    ensures made { OnOk result (rows.new ≡ rows.old ++ filter_map (spec.best_of_entry least) page.now.entries) }
    ensures stays { walk.Stays latest.old latest.new }
{
    if kept.keeps(least) {
        return rows.push(kept.share()?);
    }
    if kept.is_alone() {
        return push_keeping(rows, kept, least);
    }
    let items = Vec::with_capacity(alloc, kept.len())?;
    let mut made = List { items };
    push_early(&mut made, latest, page, kept.oldest(), least)?;
    rows.push(Arc::new(alloc, made)?)
}

// How many rows a page has with a least offset. No file and no row is looked at.
fn count_from(kept: &PageRows, least: Option<i64>) -> usize
    ensures { (page : spec.Entries) → kept.now ≡ spec.page_rows page → All spec.IsTimed page.entries
        → result ≡ length (filter_map (spec.best_of_entry least) page.entries) }
{
    if kept.keeps(least) {
        return kept.len();
    }
    count_early(kept, least)
}

// The rows of all pages, also with a least offset, on a walk from a run. Of a page whose rows keep it none is made or
// copied.
fn rows_from(
    alloc: Global,
    latest: &mut Latest<'_>,
    pages: &Pages,
    best: &RowPages,
    least: Option<i64>,
) -> Result<Rows, NoMemory>
    requires pages { spec.AreOrdered pages.now }
    requires best { spec.AreBest pages.now best.now }
    requires timed { All spec.IsTimed (spec.entries_of pages.now) }
    requires leads { walk.Leads latest.old (spec.entries_of pages.now) }
    ensures { IfOk result (λ rows. rows ≡ filter_map (spec.best_of_entry least) (spec.entries_of pages.now)) }
{
    let mut rows = Rows::new(alloc);
    for (number, page) in pages {
        push_from(
            alloc,
            &mut rows,
            latest,
            kept_page(best, number),
            page.get(),
            least,
        )?;
    }
    Ok(rows)
}

// The rows that are kept of all pages.
fn kept_rows(alloc: Global, best: &RowPages) -> Result<Rows, NoMemory>
    ensures { IfOk result (λ rows. rows ≡ spec.kept_rows best.now.entries) }
{
    let mut rows = Rows::new(alloc);
    for (_, kept) in best {
        rows.push(kept.get().share()?)?;
    }
    Ok(rows)
}

// The rows of some pages, and those of all of them.
pub(crate) fn best_of(alloc: Global, pages: RowPages) -> Result<Best, NoMemory>
    ensures { IfOk result (λ best. best ≡ record { pages = pages; rows = spec.kept_rows pages.entries }) }
{
    let rows = Arc::new(alloc, kept_rows(alloc, &pages)?)?;
    Ok(Best { pages, rows })
}

// The rows of all pages with a least offset.
fn early_rows(
    alloc: Global,
    by_run: &Pages,
    pages: &Pages,
    best: &RowPages,
    least: Option<i64>,
) -> Result<Rows, NoMemory>
    requires files { walk.AreOfOne by_run.now pages.now }
    requires best { spec.AreBest pages.now best.now }
    ensures { IfOk result (λ rows. rows ≡ filter_map (spec.best_of_entry least) (spec.entries_of pages.now)) }
{
    let runs = runs_in(alloc, by_run)?;
    match runs.as_slice() {
        [own, later @ ..] => {
            let mut latest = Latest::first_of(own, later);
            rows_from(alloc, &mut latest, pages, best, least)
        }
        [] => Ok(Rows::new(alloc)),
    }
}

// Whether it is seen at once that the kept rows of each page keep the least offset.
fn all_keep(best: &RowPages, least: Option<i64>) -> bool
    ensures { IsTrue result → KeepLeast least (spec.kept_rows best.now.entries) }
{
    for (_, kept) in best {
        if !kept.get().keeps(least) {
            return false;
        }
    }
    true
}

// The rows of all pages, also with a least offset. Where it is seen at once that all kept rows keep it, they are
// shared, and no run is listed.
pub(crate) fn best_rows(
    alloc: Global,
    by_run: &Pages,
    pages: &Pages,
    best: &Best,
    least: Option<i64>,
) -> Result<Arc<Rows>, NoMemory>
    requires files { walk.AreOfOne by_run.now pages.now }
    requires best { spec.IsBest pages.now best.now }
    ensures { IfOk result (λ rows. rows ≡ filter_map (spec.best_of_entry least) (spec.entries_of pages.now)) }
{
    if all_keep(&best.pages, least) {
        return best.rows.share();
    }
    let rows = early_rows(alloc, by_run, pages, &best.pages, least)?;
    Arc::new(alloc, rows)
}

// How many rows all pages have, also with a least offset.
pub(crate) fn best_count(pages: &Pages, best: &RowPages, least: Option<i64>) -> usize
    requires count { length (spec.entries_of pages.now) < 2 ^ 32 }
    requires pages { spec.AreOrdered pages.now }
    requires best { spec.AreBest pages.now best.now }
    requires timed { All spec.IsTimed (spec.entries_of pages.now) }
    ensures { result ≡ length (filter_map (spec.best_of_entry least) (spec.entries_of pages.now)) }
{
    let mut count = 0;
    for (number, _) in pages {
        count += count_from(kept_page(best, number), least);
    }
    count
}
