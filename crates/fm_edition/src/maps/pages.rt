//! The files by an instant, in pages of some days that editions share.
ghost use Rattle.std.specs.Prelude.{◌≡◌, ◌<◌, ℤ, IfOk, OnOk, length};
ghost use Rattle.std.specs.BTreeMap as tree;
ghost use Rattle.std.specs.List.{slice_index_or};
ghost use Rattle.std.specs.Ordering.{int_cmp};
ghost use Rattle.fm_model.specs.Rising.{Rises};
ghost use Rattle.fm_list.specs.Change.{added};
ghost use Rattle.fm_list.specs.Selected.{AreOwn};
ghost use Rattle.fm_edition.specs.Indexes as spec;
ghost use Rattle.fm_edition.specs.Page.{turned_at};
ghost use Rattle.fm_edition.specs.Steps as steps;

use crate::maps::files::Files;
use crate::maps::page::Page;
use crate::maps::shared::Shared;
use fm_base::NoMemory;
use fm_list::{By, Placed};
use fm_model::Op;
use std::alloc::Global;
use std::collections::BTreeMap;

/// The pages by their number.
pub(crate) type Pages = BTreeMap<i64, Shared<Page>>;

// The number of the page of an instant.
#[tactic(auto, unfolding(crate::specs::Indexes::page_of))]
pub(crate) fn page_of(key: i64) -> i64
    ensures { result ≡ spec.page_of key }
{
    key.div_euclid(1_048_576)
}

// The files by an instant.
pub(crate) fn files_at(pages: &Pages, key: i64) -> Files<'_>
    ensures { result ≡ spec.or_none (spec.in_page pages.now (spec.page_of key) key) }
{
    match pages.get(&page_of(key)) {
        Some(page) => page.get().files(key),
        None => Files::of(&[]),
    }
}

// Sets the page of a number. A page without instants isn't kept.
fn set_page(alloc: Global, pages: &mut Pages, number: i64, page: Page) -> Result<(), NoMemory>
    requires page { tree.IsOrdered int_cmp page }
    requires pages { spec.AreOrdered pages.old }
    ensures { OnOk result (steps.HasPage number page pages.old pages.new) }
{
    if page.len() == 0 {
        pages.remove(&number);
    } else {
        pages.insert(number, Shared::new(alloc, page)?)?;
    }
    Ok(())
}

/// An operation, the kind of instant that its files are looked up by, the files that it takes out and adds, the
/// instants that it touches, and those of the file that it adds.
#[derive(Clone, Copy)]
pub(crate) struct Change<'a> {
    pub by: By,
    pub op: &'a Op,
    pub went: &'a [Placed],
    pub added: &'a [Placed],
    pub touched: &'a [i64],
    pub own: &'a [i64],
}

// The index behind the last of the touched instants that are of one page with that at an index.
fn page_end(touched: &[i64], from: usize, number: i64) -> usize
    requires from { from < length touched.now }
    requires first { spec.page_of (slice_index_or touched.now from number) ≡ number }
    ensures { steps.IsPageEnd touched.now from number result }
{
    let mut at = from;
    while at < touched.len() && page_of(touched[at]) == number {
        at += 1;
    }
    at
}

// The page of a number after an operation, where `touched` are the instants that it touches there.
fn page_after(
    alloc: Global,
    pages: &Pages,
    number: i64,
    touched: &[i64],
    change: &Change<'_>,
) -> Result<Page, NoMemory>
    requires touched { Rises touched.now }
    requires own { AreOwn change.now.by change.now.op.now change.now.own.now }
    requires added { change.now.added.now ≡ added change.now.op.now }
    requires gone { steps.HaveGone change.now.went.now change.now.op.now pages.now }
    requires ordered { spec.AreOrdered pages.now }
    ensures ordered { IfOk result (tree.IsOrdered int_cmp) }
    ensures set { IfOk result (λ page. (key : ℤ) → tree.get int_cmp page key
        ≡ turned_at change.now.by touched.now change.now.op.now key (spec.in_page pages.now number key)) }
{
    match pages.get(&number) {
        Some(page) => page.get().after(alloc, touched, change),
        None => Page::new(alloc).after(alloc, touched, change),
    }
}

// The pages after an operation. A page of which no instant is touched stays as it is.
pub(crate) fn pages_after(
    alloc: Global,
    pages: &Pages,
    change: &Change<'_>,
) -> Result<Pages, NoMemory>
    requires rise { Rises change.now.touched.now }
    requires own { AreOwn change.now.by change.now.op.now change.now.own.now }
    requires added { change.now.added.now ≡ added change.now.op.now }
    requires gone { steps.HaveGone change.now.went.now change.now.op.now pages.now }
    requires ordered { spec.AreOrdered pages.now }
    ensures { IfOk result (steps.AreDone change.now.by change.now.touched.now change.now.op.now pages.now) }
{
    let touched = change.touched;
    let mut next = pages.clone()?;
    let mut at = 0;
    while at < touched.len() {
        let number = page_of(touched[at]);
        let end = page_end(touched, at, number);
        let page = page_after(alloc, pages, number, &touched[at..end], change)?;
        set_page(alloc, &mut next, number, page)?;
        at = end;
    }
    Ok(next)
}
