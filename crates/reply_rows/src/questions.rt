//! Questions about what a collection holds.

use super::moments::{put_moment, read_moment, read_number};
use fm_base::{Fail, List, NoMemory};
use fm_edition::Edition;
use fm_model::{Loaded, ViewName};
use fm_rows::Rows;
use fm_views::{NoRows, row_count, rows};
use pub_look::{Look, Plain, Query};
use row_text::Said;
use std::alloc::Global;

// A question in words. It has no answer where the words are none, or memory runs out.
#[derive(Clone, Copy)]
struct Question<'a> {
    words: &'a str,
}

impl<'a> Query for Question<'a> {
    type Out = Option<Said>;

    ghost says = { λ _ _ _ _. Unit {0} };

    fn answer(
        &self,
        alloc: Global,
        edition: &Edition,
        _revision: u64,
    ) -> Result<Option<Said>, NoMemory> {
        let mut out = Said::new(alloc);
        match put_answer(alloc, edition, self.words, &mut out) {
            Some(()) => Ok(Some(out)),
            None => Ok(None),
        }
    }
}

/// Puts the answer to a question in words. `None` where they are none, or memory runs out.
pub fn put_asked(alloc: Global, plain: &mut Plain, words: &str, out: &mut Said) -> Option<()> {
    let (answer, _) = plain.ask(alloc, &Question { words }).ok()?;
    out.put_said(answer?);
    Some(())
}

fn put_answer(alloc: Global, edition: &Edition, words: &str, out: &mut Said) -> Option<()> {
    let (what, rest) = words.split_once(' ').unwrap_or((words, ""));
    match what {
        "tally" => put_tally(edition, out),
        "holds" => put_yes_or_no(edition.holds(rest.as_bytes()), out),
        "older" => put_yes_or_no(edition.older_than(read_moment(rest)?), out),
        _ => put_found(alloc, edition, what, rest, out),
    }
}

// Puts the times, the cell, the run or the rows that a question asks for.
fn put_found(
    alloc: Global,
    edition: &Edition,
    what: &str,
    rest: &str,
    out: &mut Said,
) -> Option<()> {
    match what {
        "runs" => put_moments(alloc, edition.runs(alloc), out),
        "times" => put_moments(alloc, edition.times_of(alloc, read_moment(rest)?), out),
        "cell" => put_cell(edition, rest, out),
        "best" => put_best(alloc, edition, rest, out),
        "rows" => put_view(alloc, edition, view_of(rest)?, out),
        _ => None,
    }
}

fn put_tally(edition: &Edition, out: &mut Said) -> Option<()> {
    let tally = edition.tally();
    out.put_number("files ", tally.files);
    out.put_number(", rows ", tally.rows);
    out.put_number(", bytes ", tally.size);
    Some(())
}

fn put_yes_or_no(yes: bool, out: &mut Said) -> Option<()> {
    out.put(if yes { "yes" } else { "no" });
    Some(())
}

// Puts instants that were asked for on one line.
fn put_moments(alloc: Global, all: Result<List<i64>, NoMemory>, out: &mut Said) -> Option<()> {
    let all = all.ok()?;
    if all.is_empty() {
        out.put("none");
    }
    put_each(alloc, all.as_slice(), out)
}

fn put_each(alloc: Global, all: &[i64], out: &mut Said) -> Option<()> {
    for (index, moment) in all.iter().enumerate() {
        out.put(if index == 0 { "" } else { " " });
        put_moment(alloc, *moment, out)?;
    }
    Some(())
}

// Puts the file that a run has for a valid time, and the time's index there.
fn put_cell(edition: &Edition, words: &str, out: &mut Said) -> Option<()> {
    let (run, valid) = words.split_once(' ')?;
    match edition.cell(read_moment(run)?, read_moment(valid)?) {
        Some((file, index)) => put_file_and_index(file.get(), index, out),
        None => out.put("none"),
    }
    Some(())
}

// Puts the name of a file and the index of a time in it.
fn put_file_and_index(file: &Loaded, index: u32, out: &mut Said) {
    out.put_shown(file.name.as_slice());
    out.put_number(" ", index);
}

// Puts the best run of a valid time, and maybe of a least offset in seconds.
fn put_best(alloc: Global, edition: &Edition, words: &str, out: &mut Said) -> Option<()> {
    let (valid, least) = match words.split_once(' ') {
        Some((valid, least)) => (valid, Some(read_number(least)?)),
        None => (words, None),
    };
    match edition.best_run(read_moment(valid)?, least) {
        Some(run) => put_moment(alloc, run, out),
        None => {
            out.put("none");
            Some(())
        }
    }
}

// The view of some words.
fn view_of(words: &str) -> Option<ViewName> {
    let (kind, number) = words.split_once(' ').unwrap_or((words, ""));
    match kind {
        "best" if number.is_empty() => Some(ViewName::Best),
        "best" => Some(ViewName::BestFrom(read_number(number)?)),
        "run" => Some(ViewName::Run(read_moment(number)?)),
        "offset" => Some(ViewName::Offset(read_number(number)?)),
        "forecast" => Some(ViewName::Forecast(read_moment(number)?)),
        _ => None,
    }
}

// Puts how many rows a view has, and on a line each the valid time, the run, the file and the time's index there.
fn put_view(alloc: Global, edition: &Edition, view: ViewName, out: &mut Said) -> Option<()> {
    out.put_number("rows ", row_count(alloc, edition, &view).ok()?);
    match rows(alloc, edition, &view) {
        Ok(rows) => put_rows(alloc, rows.get(), out),
        Err(Fail::Fault(NoRows)) => Some(()),
        Err(Fail::NoMemory) => None,
    }
}

fn put_rows(alloc: Global, rows: &Rows, out: &mut Said) -> Option<()> {
    for index in 0..rows.len() {
        let row = rows.get(index)?;
        out.put("\n");
        put_moment(alloc, row.valid, out)?;
        out.put(" ");
        put_moment(alloc, row.run, out)?;
        out.put(" ");
        put_file_and_index(row.file.get(), row.index, out);
    }
    Some(())
}
