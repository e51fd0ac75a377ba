//! Numbers that stand in a file in rows, each some way behind the one before it.
ghost use Rattle.std.specs.Prelude.{◌≡◌, ℕ, ◌+◌, ◌*◌, ◌%◌, ◌<◌, ◌≤◌, ◌++◌, drop, false, length, take, IsTrue};
ghost use Rattle.dap_number.specs.Front.{widened_bytes};
ghost use Rattle.dap_xdr.specs.Rows.{ArePut, AreRowsAt, AreSentAs};
ghost use Rattle.dap_xdr.specs.Stretch.{stored_len};

use crate::slabs::Extent;
use crate::widen::widen;
use dap_model::DapKind;

// How many bytes a row has, how many bytes after it the next one begins, and how many rows there are at most.
#[derive(Clone, Copy)]
pub(crate) struct Rows {
    pub row: usize,
    pub step: usize,
    pub most: u64,
}

// The greatest distance, in numbers, that is counted in bytes: 2^60.
const FAR: u64 = 1_152_921_504_606_846_976;

// How many bytes `count` numbers take in a netCDF file.
#[tactic(auto, unfolding(crate::specs::Stretch::stored_len))]
fn stored_len(kind: DapKind, count: u64) -> u64
    requires { count ≤ 1_152_921_504_606_846_976 }
    ensures { result ≡ count * stored_len kind }
{
    match kind {
        DapKind::Text => 0,
        DapKind::Byte => count,
        DapKind::Int16 => count * 2,
        DapKind::Int32 | DapKind::Float32 => count * 4,
        DapKind::Float64 => count * 8,
    }
}

// Whether an element is the first of a unit, and what follows is near enough to be counted in bytes.
fn has_rows(extent: Extent, element: u64) -> bool
    requires { 0 < extent.unit }
    ensures begins { IsTrue result → element % extent.unit ≡ 0 }
    ensures unit { IsTrue result → extent.unit ≤ 1_152_921_504_606_846_976 }
    ensures pitch { IsTrue result → extent.pitch ≤ 1_152_921_504_606_846_976 }
{
    element % extent.unit == 0 && extent.unit <= FAR && extent.pitch <= FAR
}

// The rows that numbers of a kind have from an element on, where the element is the first of a unit; else none.
pub(crate) fn rows_at(kind: DapKind, extent: Extent, element: u64) -> Rows
    requires unit { 0 < extent.unit }
    requires turns { 0 < extent.turns }
    ensures { AreRowsAt kind extent element result }
{
    if !has_rows(extent, element) {
        return Rows {
            row: 0,
            step: 0,
            most: 0,
        };
    }
    let most = extent.turns - element / extent.unit % extent.turns;
    let row = stored_len(kind, extent.unit);
    let step = stored_len(kind, extent.pitch);
    Rows {
        row: row as usize,
        step: step as usize,
        most,
    }
}

// Writes bytes behind the first `at` of a buffer.
#[inline(always)]
fn put_at(bytes: &[u8], at: usize, out: &mut [u8])
    requires { at + length bytes.now ≤ length out.old }
    ensures { out.new ≡ take at out.old ++ (bytes.now ++ drop (at + length bytes.now) out.old) }
{
    let (_, rest) = out.split_at_mut(at);
    let (target, _) = rest.split_at_mut(bytes.len());
    target.copy_from_slice(bytes);
}

// How many rows stand whole in `there` bytes, each `step` bytes behind the one before it.
fn rows_there(there: usize, len: usize, step: usize) -> usize
    requires { 0 < len }
    ensures { (k : ℕ) → k < result → k * step + len ≤ there }
{
    if there < len {
        return 0;
    }
    if step == 0 {
        return 1;
    }
    let others = (there - len) / step;
    others + 1
}

// How many rows are copied: of the most that there are, as many as stand there whole and fit in a room.
fn count_rows(most: u64, len: usize, step: usize, there: usize, room: usize) -> usize
    ensures few { result ≤ most }
    ensures whole { (k : ℕ) → k < result → k * step + len ≤ there }
    ensures fits { result * len ≤ room }
{
    if len == 0 {
        return 0;
    }
    let stand = rows_there(there, len, step);
    let fit = room / len;
    let count = most.min(stand.min(fit) as u64);
    count as usize
}

// Copies rows, as many as stand there whole and fit. The length of a row and the step are arguments of their own, so
// that the compiler has one loop for each that is written out, and that loop may take many rows at once.
#[inline(always)]
fn copy_rows(stored: &[u8], len: usize, step: usize, rows: Rows, out: &mut [u8]) -> usize
    requires row { len ≡ rows.row }
    requires step { step ≡ rows.step }
    ensures { AreSentAs (λ bytes. bytes) rows stored.now out.old out.new result }
{
    let there = stored.len();
    let room = out.len();
    let count = count_rows(rows.most, len, step, there, room);
    for done in 0..count {
        let begin = done * step;
        let at = done * len;
        let (_, rest) = stored.split_at(begin);
        let (row, _) = rest.split_at(len);
        put_at(row, at, out);
    }
    count * len
}

// Whether a row of numbers of two bytes stands there whole, and fits behind the first `filled` bytes of a buffer, each
// in four.
#[inline(always)]
fn has_wide_row(rest: &[u8], len: usize, out: &[u8], filled: usize) -> bool
    requires { filled ≤ length out.now }
    ensures there { IsTrue result → len ≤ length rest.now }
    ensures fits { IsTrue result → filled + len * 2 ≤ length out.now }
{
    len <= rest.len() && len * 2 <= out.len() - filled
}

// Writes rows of numbers of two bytes, each in four, as many as stand there whole and fit.
#[inline(always)]
fn widen_rows(stored: &[u8], len: usize, rows: Rows, out: &mut [u8]) -> usize
    requires row { len ≡ rows.row }
    requires even { len % 2 ≡ 0 }
    ensures { AreSentAs widened_bytes rows stored.now out.old out.new result }
{
    let mut rest = stored;
    let mut done = 0;
    let mut filled = 0;
    while done < rows.most && has_wide_row(rest, len, out, filled) {
        let (row, _) = rest.split_at(len);
        let (_, target) = out.split_at_mut(filled);
        filled += widen(row, target);
        let (_, next) = rest.split_at(rows.step.min(rest.len()));
        rest = next;
        done += 1;
    }
    filled
}

fn is_odd(len: usize) -> bool
    ensures { result ≡ false → len % 2 ≡ 0 }
{
    len % 2 != 0
}

// The same for rows of any length: of an odd one none.
fn widen_any(stored: &[u8], rows: Rows, out: &mut [u8]) -> usize
    ensures { AreSentAs widened_bytes rows stored.now out.old out.new result }
{
    if is_odd(rows.row) {
        return 0;
    }
    match rows.row {
        2 => widen_rows(stored, 2, rows, out),
        len => widen_rows(stored, len, rows, out),
    }
}

// Copies rows of four bytes. Those of every second number are eight bytes apart.
fn copy_fours(stored: &[u8], rows: Rows, out: &mut [u8]) -> usize
    requires { rows.row ≡ 4 }
    ensures { AreSentAs (λ bytes. bytes) rows stored.now out.old out.new result }
{
    match rows.step {
        8 => copy_rows(stored, 4, 8, rows, out),
        step => copy_rows(stored, 4, step, rows, out),
    }
}

fn copy_any(stored: &[u8], rows: Rows, out: &mut [u8]) -> usize
    ensures { AreSentAs (λ bytes. bytes) rows stored.now out.old out.new result }
{
    let step = rows.step;
    match rows.row {
        1 => copy_rows(stored, 1, step, rows, out),
        4 => copy_fours(stored, rows, out),
        8 => copy_rows(stored, 8, step, rows, out),
        len => copy_rows(stored, len, step, rows, out),
    }
}

// Writes rows of numbers that stand in a file, as many as stand there whole and fit.
pub(crate) fn put_rows(kind: DapKind, stored: &[u8], rows: Rows, out: &mut [u8]) -> usize
    ensures { ArePut kind rows stored.now out.old out.new result }
{
    match kind {
        DapKind::Int16 => widen_any(stored, rows, out),
        _ => copy_any(stored, rows, out),
    }
}
