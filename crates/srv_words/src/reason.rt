//! Why words are no job, in a line for a person.

use crate::asked::command_named;
use crate::faulty::{Faulty, faulty_in};
use crate::job::Command;
use crate::line::Line;
use crate::matches::parsed;
use crate::read::texts_of;
use clap::error::ErrorKind;
use clap::{ArgMatches, Error};
use fm_base::{Bytes, Fail, List, NoMemory};
use std::alloc::Global;
use std::str;

const NO_COMMAND: &str =
    "a command is missing: serve, many, once, twod, extract, pull, check or load";

const NONE_FAULTY: &str = "no faulty word was found";

const NOT_ALONE: &str = "help is asked for by '--help' alone, or by a command and '--help'";

/// A line, without its end, that says which of the words is faulty and why, where they are no job. No clause speaks of
/// it.
pub fn reason_of(alloc: Global, words: &List<Bytes>) -> Result<String, NoMemory> {
    let mut line = Line::new(alloc);
    put_line(alloc, words.as_slice(), &mut line);
    line.text()
}

fn put_line(alloc: Global, words: &[Bytes], out: &mut Line) {
    out.put("fmrcd: ");
    put_reason(alloc, words, out);
    put_see(words, out);
}

fn put_reason(alloc: Global, words: &[Bytes], out: &mut Line) {
    match texts_of(alloc, words) {
        Ok(texts) => {
            put_reason_of_texts(alloc, texts.as_slice(), out);
            drop(texts);
        }
        Err(Fail::Fault(_)) => put_no_text(words, out),
        Err(Fail::NoMemory) => out.run_short(),
    }
}

fn put_reason_of_texts(alloc: Global, words: &[&str], out: &mut Line) {
    match parsed(alloc, words) {
        Ok(matches) => {
            put_value(alloc, &matches, out);
            drop(matches);
        }
        Err(Fail::Fault(error)) => {
            put_error(alloc, &error, out);
            drop(error);
        }
        Err(Fail::NoMemory) => out.run_short(),
    }
}

// Puts which word isn't text.
fn put_no_text(words: &[Bytes], out: &mut Line) {
    for (index, word) in words.iter().enumerate() {
        if str::from_utf8(word.as_slice()).is_err() {
            out.put("word ");
            out.put_number(index.saturating_add(1));
            out.put(" isn't UTF-8 text");
            return;
        }
    }
}

// Puts which value hasn't its form.
fn put_value(alloc: Global, matches: &ArgMatches<'_>, out: &mut Line) {
    match faulty_in(alloc, matches) {
        Some(faulty) => put_faulty(&faulty, out),
        None => out.put(NONE_FAULTY),
    }
}

fn put_faulty(faulty: &Faulty<'_>, out: &mut Line) {
    out.put("invalid value '");
    out.put_shown(faulty.value);
    out.put("' for '");
    out.put(faulty.of);
    out.put("': ");
    out.put(faulty.form);
}

// Puts the error of `clap`.
fn put_error(alloc: Global, error: &Error, out: &mut Line) {
    match error.kind() {
        ErrorKind::DisplayHelp => out.put(NOT_ALONE),
        ErrorKind::MissingSubcommand => out.put(NO_COMMAND),
        _ => put_text(alloc, error, out),
    }
}

fn put_text(alloc: Global, error: &Error, out: &mut Line) {
    match error.to_string(alloc) {
        Ok(text) => {
            put_message(text.as_str(), out);
            drop(text);
        }
        Err(_) => out.run_short(),
    }
}

// Puts the first paragraph of a text, which says which word is meant, as one line, and the first tip behind it.
fn put_message(text: &str, out: &mut Line) {
    let (front, rest) = text.split_once("\n\n").unwrap_or((text, ""));
    put_lines(front.strip_prefix("error: ").unwrap_or(front), out);
    if let Some(tip) = rest.strip_prefix("  tip: ") {
        out.put("; ");
        out.put_shown(tip.lines().next().unwrap_or(""));
    }
}

// Puts the lines of a text as one.
fn put_lines(text: &str, out: &mut Line) {
    for (index, line) in text.lines().enumerate() {
        out.put(if index == 0 { "" } else { " " });
        out.put_shown(line.trim());
    }
}

// Puts where more is said.
fn put_see(words: &[Bytes], out: &mut Line) {
    match command_in(words) {
        Some(command) => {
            out.put("; see 'fmrcd ");
            out.put(command.name());
            out.put(" --help'");
        }
        None => out.put("; see 'fmrcd --help'"),
    }
}

// The command that the first word names.
fn command_in(words: &[Bytes]) -> Option<Command> {
    match words {
        [first, ..] => command_named(first.as_slice()),
        [] => None,
    }
}
