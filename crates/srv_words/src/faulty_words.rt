//! Steps, folders and collections that haven't their form.

use crate::collections::parts_of;
use crate::faulty::Faulty;
use crate::help::{
    ASK_FORM, CHANGE_FORM, EXPIRE_FORM, FOLDERS_FORM, NAMES_FORM, SPEC_FORM, SPECS_FORM, STEP_FORM,
};
use crate::many::{MAX_SPECS, MIN_SPECS};
use crate::matches::{text_of, texts_of};
use crate::serve::MAX_INBOXES;
use crate::stepped::is_change;
use crate::steps::step_of;
use crate::values::epoch_of;
use clap::ArgMatches;
use fm_base::Fail;
use std::alloc::Global;

/// The first folder that is too many.
pub(crate) fn faulty_folder<'a>(matches: &ArgMatches<'a>) -> Option<Faulty<'a>> {
    faulty_at(
        texts_of(matches, "INBOX")?,
        MAX_INBOXES,
        "<INBOX>...",
        FOLDERS_FORM,
    )
}

// The word at an index.
fn faulty_at<'a>(
    words: &[&'a str],
    index: u32,
    of: &'static str,
    form: &'static str,
) -> Option<Faulty<'a>> {
    match words.get(index as usize) {
        Some(value) => Some(Faulty {
            value: *value,
            of,
            form,
        }),
        None => None,
    }
}

/// The first word that is no step, or one of the command, which may take steps that ask for replies.
pub(crate) fn faulty_step<'a>(
    alloc: Global,
    matches: &ArgMatches<'a>,
    may_ask: bool,
) -> Option<Faulty<'a>> {
    let epoch = epoch_of(text_of(matches, "epoch"))?;
    first_bad_step(alloc, epoch, texts_of(matches, "STEP")?, may_ask)
}

fn first_bad_step<'a>(
    alloc: Global,
    epoch: i64,
    words: &[&'a str],
    may_ask: bool,
) -> Option<Faulty<'a>> {
    for word in words {
        if !is_step(alloc, epoch, word, may_ask) {
            return Some(Faulty {
                value: *word,
                of: "<STEP>...",
                form: step_form(word.as_bytes(), may_ask),
            });
        }
    }
    None
}

// Whether a word is a step, as far as memory suffices to say so.
fn is_step(alloc: Global, epoch: i64, word: &str, may_ask: bool) -> bool {
    match step_of(alloc, epoch, word.as_bytes()) {
        Ok(step) => {
            let is_one = may_ask || is_change(&step);
            drop(step);
            is_one
        }
        Err(Fail::Fault(_)) => false,
        Err(Fail::NoMemory) => true,
    }
}

// The form of the step that a word begins as.
fn step_form(word: &[u8], may_ask: bool) -> &'static str {
    if word.starts_with(b"expire:") {
        EXPIRE_FORM
    } else if !may_ask {
        CHANGE_FORM
    } else if word.starts_with(b"ask:") {
        ASK_FORM
    } else {
        STEP_FORM
    }
}

/// The first word that is no collection, that has a name of one before, or that is too many; or the only one.
pub(crate) fn faulty_spec<'a>(matches: &ArgMatches<'a>) -> Option<Faulty<'a>> {
    let words = texts_of(matches, "SPEC")?;
    let index = if words.len() < MIN_SPECS as usize {
        0
    } else {
        MAX_SPECS
    };
    match first_bad_spec(words) {
        Some(faulty) => Some(faulty),
        None => faulty_at(words, index, "<SPEC>...", SPECS_FORM),
    }
}

fn first_bad_spec<'a>(words: &[&'a str]) -> Option<Faulty<'a>> {
    for (index, word) in words.iter().enumerate() {
        if let Some(form) = spec_form(&words[..index], word) {
            return Some(Faulty {
                value: *word,
                of: "<SPEC>...",
                form,
            });
        }
    }
    None
}

// The form that the word of a collection behind these hasn't.
fn spec_form(before: &[&str], word: &str) -> Option<&'static str> {
    let Some(parts) = parts_of(word.as_bytes()) else {
        return Some(SPEC_FORM);
    };
    for other in before {
        if is_named(other, parts.name) {
            return Some(NAMES_FORM);
        }
    }
    None
}

// Whether a word gives a collection this name.
fn is_named(word: &str, name: &[u8]) -> bool {
    match parts_of(word.as_bytes()) {
        Some(parts) => parts.name == name,
        None => false,
    }
}
