//! The rows of a page that keep a least offset, where each valid time is that of one file.
ghost use Rattle.std.specs.Prelude.{◌≡◌, ◌≤◌, ◌++◌, OnOk, drop, filter, length, map, take};
ghost use Rattle.fm_edition.specs.Least as spec;

use crate::maps::early::lies_after;
use crate::maps::page_rows::PageRows;
use fm_base::NoMemory;
use fm_rows::Rows;

// Adds the rows of a page from one index up to another, if there are any. None is made or copied.
fn push_between(rows: &mut Rows, kept: &PageRows, from: usize, to: usize) -> Result<(), NoMemory>
    requires order { from ≤ to }
    requires within { to ≤ length kept.now.rows }
    ensures { OnOk result (rows.new ≡ rows.old ++ drop from (take to kept.now.rows)) }
{
    if from == to {
        return Ok(());
    }
    rows.push_part(kept.share()?, from, to)
}

// Adds the rows of a page that keep a least offset. Those that stand one after the other are shared. No row is looked
// at, since its run is the least one of its valid time, and of a stretch no valid time behind the first that keeps it.
pub(crate) fn push_keeping(
    rows: &mut Rows,
    kept: &PageRows,
    least: Option<i64>,
) -> Result<(), NoMemory>
    requires { kept.now.oldest ≡ map spec.row_time kept.now.rows }
    ensures { OnOk result (rows.new ≡ rows.old ++ filter (spec.keeps_least least) kept.now.rows) }
{
    let times = kept.oldest();
    let mut from = 0;
    let mut at = 0;
    while at < times.len() {
        if lies_after(&times[at], least) {
            at = kept.end_of(at);
        } else {
            push_between(rows, kept, from, at)?;
            at += 1;
            from = at;
        }
    }
    push_between(rows, kept, from, at)
}
