//! Rows that are run and counted.

use crate::said::Said;
use crate::text::{Row, rows};
use std::alloc::{AllocError, Global};
use std::io::{self, Eprint, Print};
use std::process::ExitCode;

/// The number of rows that were run, and of those whose answer isn't the wanted one.
#[derive(Clone, Copy, Default)]
pub struct Count {
    pub rows: usize,
    pub wrong: usize,
}

/// The answer to a row, in the words of its `want`.
pub trait Answers {
    /// Puts the answer into an empty text. It is false where the row isn't one that this program knows.
    fn answer(&self, alloc: Global, row: &Row<'_>, out: &mut Said) -> Result<bool, AllocError>;
}

/// Runs and counts the rows of a text. A row with another answer than the wanted one goes to standard error. So does a
/// row that isn't known, whatever it wants.
pub fn run<A: Answers>(
    rt: &impl Eprint,
    alloc: Global,
    path: &str,
    text: &str,
    answers: &A,
    count: &mut Count,
) -> io::Result<()> {
    let rows = rows(alloc, text)?;
    let ran = run_rows(rt, alloc, path, rows.as_slice(), answers, count);
    drop(rows);
    ran
}

fn run_rows<A: Answers>(
    rt: &impl Eprint,
    alloc: Global,
    path: &str,
    rows: &[Row<'_>],
    answers: &A,
    count: &mut Count,
) -> io::Result<()> {
    for row in rows {
        run_row(rt, alloc, path, row, answers, count)?;
    }
    Ok(())
}

fn run_row<A: Answers>(
    rt: &impl Eprint,
    alloc: Global,
    path: &str,
    row: &Row<'_>,
    answers: &A,
    count: &mut Count,
) -> io::Result<()> {
    let mut said = Said::new(alloc);
    let known = answers.answer(alloc, row, &mut said);
    let compared = compare(rt, path, row, said.known(known), count);
    drop(said);
    compared
}

// Counts a row, and prints it where its answer isn't the wanted one.
fn compare(
    rt: &impl Eprint,
    path: &str,
    row: &Row<'_>,
    got: Result<Option<&str>, AllocError>,
    count: &mut Count,
) -> io::Result<()> {
    let got = got?;
    count.rows = count.rows.saturating_add(1);
    if is_wanted(row, got) {
        return Ok(());
    }
    count.wrong = count.wrong.saturating_add(1);
    report(rt, path, row, got)
}

// Whether an answer is the one that a row wants.
fn is_wanted(row: &Row<'_>, got: Option<&str>) -> bool {
    match (got, row.value("want")) {
        (Some(got), Some(want)) => got == want,
        _ => false,
    }
}

// Prints a row's name, its answer and the wanted one.
fn report(rt: &impl Eprint, path: &str, row: &Row<'_>, got: Option<&str>) -> io::Result<()> {
    let name = row.value("name").unwrap_or("(no name)");
    eprintln!(rt; "{path}:{}: {name}", row.line)?;
    print_under(rt, "got", got.unwrap_or("(a row of another form)"))?;
    print_under(rt, "want", row.value("want").unwrap_or("(no want)"))
}

fn print_under(rt: &impl Eprint, title: &str, text: &str) -> io::Result<()> {
    eprintln!(rt; "-- {title}\n{text}")
}

/// Prints the counts. The exit status is 0 where no row was wrong.
pub fn end(rt: &impl Print, count: Count) -> io::Result<ExitCode> {
    println!(rt; "{} rows, {} wrong", count.rows, count.wrong)?;
    Ok(ExitCode::from((count.wrong > 0) as u8))
}
