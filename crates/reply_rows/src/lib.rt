//! Rows of collections: operations over a prototype, and questions or the events of sessions.
#![tactic(auto)]

mod collection;
mod events;
mod lent;
mod moments;
mod operations;
mod prototype;
mod questions;
mod race;
mod steps;

pub use race::{Raced, run_race};
use row_text::{Answers, File, Row, Said};
use std::alloc::{AllocError, Global};

/// The files that rows begin from.
#[derive(Clone, Copy)]
pub struct Collections<'a> {
    pub files: &'a [File],
}

impl Answers for Collections<'_> {
    fn answer(&self, alloc: Global, row: &Row<'_>, out: &mut Said) -> Result<bool, AllocError> {
        Ok(put_answer(alloc, self.files, row, out).is_some())
    }
}

// Puts the answer to a row. `None` where it is of another form, or memory runs out.
fn put_answer(alloc: Global, files: &[File], row: &Row<'_>, out: &mut Said) -> Option<()> {
    match row.value("sessions") {
        Some(sessions) => events::put_events(alloc, files, row, sessions, out),
        None => steps::put_steps(alloc, files, row, out),
    }
}
