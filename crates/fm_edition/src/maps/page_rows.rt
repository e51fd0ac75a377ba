//! The rows of the best time series of a page, and how far their valid times lie after their runs.
ghost use Rattle.std.specs.Prelude.{◌≤ℤ◌};
ghost use Rattle.fm_edition.specs.Least.{LieAfter};

use crate::maps::stretches::ends_of;
use fm_base::{Arc, List, NoMemory};
use fm_model::Row;
use std::alloc::Global;
use std::marker::Model;

/// A valid time, and the least run of its files.
#[derive(Clone, Copy)]
pub(crate) struct Oldest {
    pub valid: i64,
    pub run: i64,
}

/// The rows of a page, and each valid time of the page beside the least run of its files. Beside these stand how many
/// seconds the valid time of a row lies after its run at least, the end of the stretch of each valid time, and whether
/// each is that of one file. A clause sees neither the seconds nor the ends.
#[derive(Drop)]
pub(crate) struct PageRows {
    rows: Arc<List<Row>>,
    least: i128,
    oldest: List<Oldest>,
    ends: List<usize>,
    alone: bool,
}

fn lesser(one: i128, other: i128) -> i128
    ensures first { result ≤ℤ one }
    ensures second { result ≤ℤ other }
{
    if one < other { one } else { other }
}

// The least number of seconds that the valid time of a row lies after its run.
fn least_of(rows: &[Row]) -> i128
    ensures { LieAfter result rows.now }
{
    let mut least = i128::MAX;
    for row in rows {
        least = lesser(least, i128::from(row.valid) - i128::from(row.run));
    }
    least
}

impl Model for PageRows {
    ghost use Rattle.fm_edition.specs.Kept.{KeptRows};
    ghost use Rattle.fm_edition.specs.Least.{LieAfter};
    ghost use Rattle.fm_edition.specs.Stretches.{AreEnds};

    ghost Value = { KeptRows };

    ghost view = { λ page. record { rows = page.rows; oldest = page.oldest; alone = page.alone } };

    ghost invariant = { λ page. (LieAfter page.least page.rows) × (AreEnds page.oldest page.ends) };
}

impl PageRows {
    ghost use Rattle.std.specs.Prelude.{◌≡◌, ◌<◌, IfOk, IsTrue, length};
    ghost use Rattle.fm_edition.specs.Least.{KeepLeast};
    ghost use Rattle.fm_edition.specs.Stretches.{IsEnd};

    pub(crate) fn new(
        alloc: Global,
        rows: List<Row>,
        oldest: List<Oldest>,
        alone: bool,
    ) -> Result<PageRows, NoMemory>
        ensures { IfOk result (λ page. page ≡ record { rows = rows; oldest = oldest; alone = alone }) }
    {
        let least = least_of(rows.as_slice());
        let ends = ends_of(alloc, oldest.as_slice())?;
        Ok(PageRows {
            rows: Arc::new(alloc, rows)?,
            least,
            oldest,
            ends,
            alone,
        })
    }

    pub(crate) fn len(&self) -> usize
        ensures { result ≡ length self.now.rows }
    {
        self.rows.get().len()
    }

    // Whether each valid time of the page is that of one file.
    pub(crate) fn is_alone(&self) -> bool
        ensures { result ≡ self.now.alone }
    {
        self.alone
    }

    // Each valid time of the page, and the least run of its files.
    pub(crate) fn oldest(&self) -> &[Oldest]
        ensures { result.now ≡ self.now.oldest }
    {
        self.oldest.as_slice()
    }

    // The end of the stretch of a valid time.
    pub(crate) fn end_of(&self, at: usize) -> usize
        requires { at < length self.now.oldest }
        ensures { IsEnd self.now.oldest at result }
    {
        self.ends.as_slice()[at]
    }

    // One more owner of the rows.
    pub(crate) fn share(&self) -> Result<Arc<List<Row>>, NoMemory>
        ensures { IfOk result (λ rows. rows ≡ self.now.rows) }
    {
        self.rows.share()
    }

    // Whether it is seen at once that each row keeps the least offset.
    pub(crate) fn keeps(&self, least: Option<i64>) -> bool
        ensures { IsTrue result → KeepLeast least self.now.rows }
    {
        match least {
            Some(seconds) => i128::from(seconds) <= self.least,
            None => true,
        }
    }
}
