//! How much some files are, and which limit they would pass.
ghost use Rattle.std.specs.Prelude.{◌≡◌, ◌+◌, ◌<◌, ◌≤◌, ◌^◌, length};
ghost use Rattle.fm_model.specs.Collection.{full_of, tally, IsWithin};
ghost use Rattle.fm_list.specs.Change.{gone};
ghost use Rattle.fm_edition.specs.Amounts as spec;

use crate::maps::files::Files;
use fm_list::Placed;
use fm_list::change::keeps;
use fm_model::{Full, Loaded, MAX_BYTES, MAX_FILES, MAX_ROWS, Op, Tally, Which};

// The number of bytes of a file.
fn size_of(file: &Loaded) -> u64
    ensures value { result ≡ length file.now.content }
    ensures small { result < 2 ^ 63 }
{
    file.content.items.len() as u64
}

// The number of times of a file.
fn rows_of(file: &Loaded) -> u64
    ensures value { result ≡ length file.now.times }
    ensures small { result < 2 ^ 63 }
{
    file.times.items.len() as u64
}

// How much there is where a file is added.
fn with_file(left: Tally, file: &Loaded) -> Tally
    requires files { left.files < MAX_FILES }
    requires rows { left.rows + length file.now.times ≤ MAX_ROWS }
    requires size { left.size + length file.now.content ≤ MAX_BYTES }
    ensures { result ≡ record {
      files = left.files + 1;
      rows = left.rows + length file.now.times;
      size = left.size + length file.now.content;
    } }
{
    Tally {
        files: left.files + 1,
        rows: left.rows + rows_of(file) as u32,
        size: left.size + size_of(file),
    }
}

// No files, times or bytes.
pub(crate) fn nothing() -> Tally
    ensures { result ≡ record { files = 0; rows = 0; size = 0 } }
{
    Tally {
        files: 0,
        rows: 0,
        size: 0,
    }
}

// How much there is with what an operation takes out of some files.
pub(crate) fn with_gone(before: Tally, files: &[Placed], op: &Op) -> Tally
    requires { IsWithin (spec.plus before (tally (gone files.now op.now))) }
    ensures { result ≡ spec.plus before (tally (gone files.now op.now)) }
{
    let mut sum = before;
    for file in files {
        let file = file.get();
        if !keeps(op, file) {
            sum = with_file(sum, file);
        }
    }
    sum
}

// What is left of what is held without what an operation takes out of some files.
fn left_of(held: Tally, files: &Files<'_>, op: &Op) -> Tally
    requires held { IsWithin held }
    requires part { spec.IsPartOf held (tally (gone files.now op.now)) }
    ensures { result ≡ spec.less held (tally (gone files.now op.now)) }
{
    let gone = files.tally_gone(op);
    Tally {
        files: held.files - gone.files,
        rows: held.rows - gone.rows,
        size: held.size - gone.size,
    }
}

// How much there is after an operation, where `held` is how much there was, and `near` has what it takes out.
pub(crate) fn tally_after(held: Tally, near: &Files<'_>, op: &Op) -> Tally
    requires held { IsWithin held }
    requires part { spec.IsPartOf held (tally (gone near.now op.now)) }
    requires within { IsWithin (spec.with_added op.now (spec.less held (tally (gone near.now op.now)))) }
    ensures { result ≡ spec.with_added op.now (spec.less held (tally (gone near.now op.now))) }
{
    let left = left_of(held, near, op);
    match op {
        Op::Put(file) => with_file(left, file.get()),
        Op::Expire(_) => left,
        Op::Retract(_) => left,
    }
}

// The first limit that is passed: of the number of files, of their times, of their bytes.
#[tactic(auto, unfolding(fm_model::specs::Collection::full_of))]
fn first_passed(files: u64, rows: u64, size: u64) -> Option<Full>
    ensures { result ≡ full_of (record { files = files; rows = rows; size = size }) }
{
    let (which, held, limit) = if files > u64::from(MAX_FILES) {
        (Which::Files, files, u64::from(MAX_FILES))
    } else if rows > u64::from(MAX_ROWS) {
        (Which::Rows, rows, u64::from(MAX_ROWS))
    } else if size > MAX_BYTES {
        (Which::Size, size, MAX_BYTES)
    } else {
        return None;
    };
    Some(Full { which, held, limit })
}

// Which limit would be passed where a file is added to what is held, if any.
fn full_with(left: Tally, file: &Loaded) -> Option<Full>
    requires { left.size ≤ MAX_BYTES }
    ensures { result ≡ full_of (record {
      files = left.files + 1;
      rows = left.rows + length file.now.times;
      size = left.size + length file.now.content;
    }) }
{
    first_passed(
        u64::from(left.files) + 1,
        u64::from(left.rows) + rows_of(file),
        left.size + size_of(file),
    )
}

// Which limit would be passed after an operation, if any, where `held` is how much there is, and `near` has what the
// operation takes out. Only a put adds to it.
pub(crate) fn full_after(held: Tally, near: &Files<'_>, op: &Op) -> Option<Full>
    requires held { IsWithin held }
    requires part { spec.IsPartOf held (tally (gone near.now op.now)) }
    ensures { result ≡ full_of (spec.with_added op.now (spec.less held (tally (gone near.now op.now)))) }
{
    let left = left_of(held, near, op);
    match op {
        Op::Put(file) => full_with(left, file.get()),
        Op::Expire(_) => None,
        Op::Retract(_) => None,
    }
}
