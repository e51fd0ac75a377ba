//! Rows in pages.
ghost use Rattle.std.specs.Prelude.{◌≡◌, ◌≤◌, ◌++◌, ◌↔◌, [], IfOk, IfSome, IsNone, IsTrue, None, OnErr, OnOk, Some, drop, length, nat_le, slice_get, take};
ghost use Rattle.std.specs.List.Sorted.{IsNonDecreasingBy};
ghost use Rattle.fm_rows.specs.Pages.{AreBegun};

use crate::stretch::Stretch;
use fm_base::{Arc, List, NoMemory};
use fm_model::Row;
use std::alloc::Global;
use std::marker::Model;

// A page, and how many rows stand before it.
#[derive(Drop)]
struct Page {
    start: usize,
    rows: Stretch,
}

/// The rows of a view, page after page. Several views may share a page. A clause sees the rows alone.
#[derive(Drop)]
pub struct Rows {
    pages: List<Page>,
    len: usize,
}

// How many pages begin at or before an index.
fn begun_at(pages: &[Page], index: usize) -> usize
    requires { IsNonDecreasingBy (λ page. page.start) pages.now }
    ensures bound { result ≤ length pages.now }
    ensures begun { AreBegun pages.now index result }
{
    pages.partition_point(
        |page: &Page| -> bool
            ensures { result ≡ nat_le page.now.start index }
        { page.start <= index },
    )
}

// The row at an index of a page.
fn row_at(rows: &[Row], index: usize) -> Option<&Row>
    ensures found { IfSome result (λ row. slice_get rows.now index ≡ Some row.now) }
    ensures none { IsNone result → slice_get rows.now index ≡ None }
{
    rows.get(index)
}

impl Model for Rows {
    ghost use Rattle.std.specs.Prelude.{List};
    ghost use Rattle.fm_model.specs.declared.row.Row.{Row as TheRow};
    ghost use Rattle.fm_rows.specs.Pages.{rows_in, ArePages};

    ghost Value = { List TheRow };

    ghost view = { λ rows. rows_in rows.pages };

    ghost invariant = { λ rows. ArePages rows.pages rows.len };
}

impl Rows {
    /// No rows. It takes no memory.
    pub fn new(alloc: Global) -> Rows
        ensures { result ≡ [] }
    {
        Rows {
            pages: List::new(alloc),
            len: 0,
        }
    }

    /// The rows of one page.
    pub fn of_page(alloc: Global, page: List<Row>) -> Result<Rows, NoMemory>
        ensures { IfOk result (λ rows. rows ≡ page) }
    {
        let mut rows = Rows::new(alloc);
        rows.push(Arc::new(alloc, page)?)?;
        Ok(rows)
    }

    // Adds rows of a list at the end.
    fn push_stretch(&mut self, rows: Stretch) -> Result<(), NoMemory>
        ensures ok { OnOk result (self.new ≡ self.old ++ rows) }
        ensures err { OnErr result (self.new ≡ self.old) }
    {
        let start = self.len;
        let Some(len) = start.checked_add(rows.len()) else {
            return Err(NoMemory);
        };
        self.pages.push(Page { start, rows })?;
        self.len = len;
        Ok(())
    }

    /// Adds the rows of a page at the end. It takes no memory for them. An `Err` changes nothing.
    pub fn push(&mut self, page: Arc<List<Row>>) -> Result<(), NoMemory>
        ensures ok { OnOk result (self.new ≡ self.old ++ page) }
        ensures err { OnErr result (self.new ≡ self.old) }
    {
        self.push_stretch(Stretch::whole(page))
    }

    /// Adds the rows of a page from one index up to another. It takes no memory for them. An `Err` changes nothing.
    pub fn push_part(
        &mut self,
        page: Arc<List<Row>>,
        from: usize,
        to: usize,
    ) -> Result<(), NoMemory>
        requires order { from ≤ to }
        requires within { to ≤ length page }
        ensures ok { OnOk result (self.new ≡ self.old ++ drop from (take to page)) }
        ensures err { OnErr result (self.new ≡ self.old) }
    {
        self.push_stretch(Stretch::part(page, from, to))
    }

    /// The number of rows.
    pub fn len(&self) -> usize
        ensures { result ≡ length self.now }
    {
        self.len
    }

    /// Whether there is no row.
    pub fn is_empty(&self) -> bool
        ensures { IsTrue result ↔ (self.now ≡ []) }
    {
        self.len == 0
    }

    /// The row at an index. `None` where there are no more than `index` rows. It takes as many steps as the number of
    /// pages has binary digits.
    pub fn get(&self, index: usize) -> Option<&Row>
        ensures found { IfSome result (λ row. slice_get self.now index ≡ Some row.now) }
        ensures none { IsNone result → slice_get self.now index ≡ None }
    {
        let pages = self.pages.as_slice();
        let begun = begun_at(pages, index);
        if begun == 0 {
            return None;
        }
        let page = &pages[begun - 1];
        row_at(page.rows.get(), index - page.start)
    }
}
