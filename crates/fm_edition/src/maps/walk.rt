//! All instants, and the rows of a view, in one walk through the pages.
ghost use Rattle.std.specs.Prelude.{◌≡◌, ◌<◌, ◌++◌, ◌^◌, All, IfOk, OnOk, length, map};
ghost use Rattle.std.specs.List.{filter_map};
ghost use Rattle.std.specs.Map.{keys_of as keys_in};
ghost use Rattle.fm_edition.specs.Indexes as spec;
ghost use Rattle.fm_edition.specs.Latest.{entry_of};

use crate::maps::entry::{has_wanted, push_wanted};
use crate::maps::files::Files;
use crate::maps::latest::RunFiles;
use crate::maps::page::Page;
use crate::maps::pages::Pages;
use crate::maps::wanted::Wanted;
use fm_base::{List, NoMemory};
use fm_model::Row;
use fm_rows::Rows;
use std::alloc::Global;

// Adds the instants of a page.
fn push_keys(keys: &mut List<i64>, page: &Page) -> Result<(), NoMemory>
    ensures { OnOk result (keys.new ≡ keys.old ++ keys_in page.now.entries) }
{
    for at in 0..page.len() {
        let (key, _) = page.entry(at);
        keys.push(key)?;
    }
    Ok(())
}

// The instants of all pages.
pub(crate) fn keys_of(alloc: Global, pages: &Pages) -> Result<List<i64>, NoMemory>
    ensures { IfOk result (λ keys. keys ≡ keys_in (spec.entries_of pages.now)) }
{
    let mut keys = List::new(alloc);
    for (_, page) in pages {
        push_keys(&mut keys, page.get())?;
    }
    Ok(keys)
}

// Adds the runs of a page, with the files of each.
fn push_runs<'a>(runs: &mut List<RunFiles<'a>>, page: &'a Page) -> Result<(), NoMemory>
    ensures { OnOk result (map entry_of runs.new ≡ map entry_of runs.old ++ page.now.entries) }
{
    for at in 0..page.len() {
        let (run, files) = page.entry(at);
        runs.push(RunFiles { run, files })?;
    }
    Ok(())
}

// The runs of all pages, with the files of each.
pub(crate) fn runs_in(alloc: Global, pages: &Pages) -> Result<List<RunFiles<'_>>, NoMemory>
    ensures { IfOk result (λ runs. map entry_of runs ≡ spec.entries_of pages.now) }
{
    let mut runs = List::new(alloc);
    for (_, page) in pages {
        push_runs(&mut runs, page.get())?;
    }
    Ok(runs)
}

// Adds the rows of a page.
fn push_page(rows: &mut List<Row>, page: &Page, wanted: Wanted) -> Result<(), NoMemory>
    requires { All spec.IsSound page.now.entries }
    ensures { OnOk result (rows.new ≡ rows.old ++ filter_map (spec.entry_row wanted) page.now.entries) }
{
    for at in 0..page.len() {
        let (key, files) = page.entry(at);
        push_wanted(rows, &files, key, wanted)?;
    }
    Ok(())
}

// The rows of all pages.
pub(crate) fn rows_in(alloc: Global, pages: &Pages, wanted: Wanted) -> Result<Rows, NoMemory>
    requires { All spec.IsSound (spec.entries_of pages.now) }
    ensures { IfOk result (λ rows. rows ≡ filter_map (spec.entry_row wanted) (spec.entries_of pages.now)) }
{
    let mut rows = List::new(alloc);
    for (_, page) in pages {
        push_page(&mut rows, page.get(), wanted)?;
    }
    Rows::of_page(alloc, rows)
}

// Whether there is one file.
fn is_one(files: &Files<'_>) -> bool
    ensures { result ≡ spec.is_one files.now }
{
    files.up_to_two() == 1
}

// Whether each instant of a page is that of one file.
pub(crate) fn each_one(page: &Page) -> bool
    ensures { result ≡ spec.each_one page.now.entries }
{
    for at in 0..page.len() {
        let (_, files) = page.entry(at);
        if !is_one(&files) {
            return false;
        }
    }
    true
}

// How many rows a page has.
fn count_page(page: &Page, wanted: Wanted) -> usize
    requires count { length page.now.entries < 2 ^ 63 }
    requires sound { All spec.IsSound page.now.entries }
    ensures { result ≡ length (filter_map (spec.entry_row wanted) page.now.entries) }
{
    let mut count = 0;
    for at in 0..page.len() {
        let (key, files) = page.entry(at);
        if has_wanted(&files, key, wanted) {
            count += 1;
        }
    }
    count
}

// How many rows all pages have.
pub(crate) fn count_in(pages: &Pages, wanted: Wanted) -> usize
    requires count { length (spec.entries_of pages.now) < 2 ^ 32 }
    requires sound { All spec.IsSound (spec.entries_of pages.now) }
    ensures { result ≡ length (filter_map (spec.entry_row wanted) (spec.entries_of pages.now)) }
{
    let mut count = 0;
    for (_, page) in pages {
        count += count_page(page.get(), wanted);
    }
    count
}
