//! Rows about netCDF files: their headers, layouts and elements, what they are as a prototype and as a file of a
//! collection, and the sums of files that are made.
#![tactic(auto)]

mod faults;
mod layouts;
mod loading;
mod made;
mod prototypes;
mod question;
mod words;

use loading::put_load;
use made::put_made;
use question::Question;
use row_text::{Answers, File, Row, Said, content};
use std::alloc::{AllocError, Global};

/// The files that rows begin from.
#[derive(Clone, Copy)]
pub struct Files<'a> {
    pub files: &'a [File],
}

impl Answers for Files<'_> {
    fn answer(&self, alloc: Global, row: &Row<'_>, out: &mut Said) -> Result<bool, AllocError> {
        Ok(put_answer(alloc, self.files, row, out))
    }
}

// Puts what comes out of a row; false where it isn't known.
fn put_answer(alloc: Global, files: &[File], row: &Row<'_>, out: &mut Said) -> bool {
    if row.value("load").is_some() {
        return put_load(alloc, files, row, out);
    }
    if let Some(words) = row.value("made") {
        return row.has_only(&["made"]) && put_made(alloc, words, out);
    }
    put_question(alloc, files, row, out)
}

// The keys of questions about a file alone.
const KEYS: [&str; 4] = ["header", "layout", "elements", "prototype"];

// Puts the answer to the question of a row about a file alone; false where there is none.
fn put_question(alloc: Global, files: &[File], row: &Row<'_>, out: &mut Said) -> bool {
    for key in KEYS.iter() {
        if row.value(key).is_some() && row.has_only(&[*key, "cuts"]) {
            return put_asked(alloc, files, row, key, question_of(key), out);
        }
    }
    false
}

// The question of a key.
fn question_of<'a>(key: &str) -> Question<'a> {
    match key {
        "header" => Question::Header,
        "layout" => Question::Layout,
        "elements" => Question::Elements,
        _ => Question::Prototype,
    }
}

// Puts the answer to a question about the file that the value of a key describes; false where there is none.
fn put_asked(
    alloc: Global,
    files: &[File],
    row: &Row<'_>,
    key: &str,
    question: Question<'_>,
    out: &mut Said,
) -> bool {
    match content(alloc, files, row.value(key).unwrap_or("")) {
        Ok(Some(bytes)) => question.put(alloc, bytes.as_slice(), row.value("cuts"), out),
        Ok(None) => false,
        Err(AllocError) => {
            out.run_short();
            true
        }
    }
}
