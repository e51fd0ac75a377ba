//! Values that haven't their form.

use crate::asked::command_named;
use crate::faulty_words::{faulty_folder, faulty_spec, faulty_step};
use crate::help::{
    ADDRESS_FORM, COUNT_FORM, EPOCH_FORM, FILES_FORM, KEEP_FORM, MARK_FORM, NAME_FORM,
    SERVICE_FORM, TARGET_FORM, VERSION_FORM, VIEW_FORM, WORKERS_FORM,
};
use crate::job::Command;
use crate::load::{MAX_MADE, MAX_SEED};
use crate::matches::subcommand_of;
use crate::number::number_in;
use crate::pull::{MAX_ADDRESS, MAX_TARGET};
use crate::serve::{MAX_COUNT, MAX_KEPT, MAX_WORKERS};
use crate::values::{MAX_MARK, epoch_of, is_collection_name, is_visible};
use crate::views::{is_view, service_of, version_of};
use clap::ArgMatches;
use std::alloc::Global;

/// A value that hasn't its form.
#[derive(Clone, Copy)]
pub(crate) struct Faulty<'a> {
    pub value: &'a str,
    /// The option or the positional, as the usage calls it.
    pub of: &'static str,
    /// What it must be.
    pub form: &'static str,
}

// What a text must be.
#[derive(Clone, Copy)]
enum Kind {
    Name,
    Epoch,
    Mark,
    Service,
    View,
    Version,
    Address,
    Target,
    Seed,
    Files,
    Workers,
    Count,
    Keep,
}

// The options and the single words that have a form: the id of each, what the usage calls it, and what it must be.
// Those of a command stand in the order in which they are looked at.
const VALUES: &[(&str, &str, Kind)] = &[
    ("name", "--name <NAME>", Kind::Name),
    ("epoch", "--epoch <INSTANT>", Kind::Epoch),
    ("mark", "--mark <MARK>", Kind::Mark),
    ("service", "--service <SERVICE>", Kind::Service),
    ("view", "--view <VIEW>", Kind::View),
    ("format", "--format <VERSION>", Kind::Version),
    ("connect", "--connect <ADDRESS>", Kind::Address),
    ("TARGET", "<TARGET>", Kind::Target),
    ("SEED", "<SEED>", Kind::Seed),
    ("FILES", "<FILES>", Kind::Files),
    ("workers", "--workers <NUMBER>", Kind::Workers),
    ("connections", "--connections <NUMBER>", Kind::Count),
    ("keep", "--keep <SECONDS>", Kind::Keep),
    ("ticks", "--ticks <NUMBER>", Kind::Count),
];

/// The first value of the subcommand in the words that hasn't its form.
pub(crate) fn faulty_in<'a>(alloc: Global, matches: &ArgMatches<'a>) -> Option<Faulty<'a>> {
    let (name, matches) = subcommand_of(matches)?;
    match faulty_value(matches) {
        Some(faulty) => Some(faulty),
        None => faulty_word(alloc, command_named(name.as_bytes())?, matches),
    }
}

// The first option or single word that hasn't its form. One that a command doesn't have has no value.
fn faulty_value<'a>(matches: &ArgMatches<'a>) -> Option<Faulty<'a>> {
    for (id, of, kind) in VALUES {
        match matches.get_str(id) {
            Some(value) if !has_form(*kind, value.as_bytes()) => {
                return Some(Faulty {
                    value,
                    of: *of,
                    form: form_of(*kind),
                });
            }
            _ => {}
        }
    }
    None
}

// The first step, folder or collection of a command that hasn't its form.
fn faulty_word<'a>(
    alloc: Global,
    command: Command,
    matches: &ArgMatches<'a>,
) -> Option<Faulty<'a>> {
    match command {
        Command::Once => faulty_step(alloc, matches, true),
        Command::Twod | Command::Extract => faulty_step(alloc, matches, false),
        Command::Serve => faulty_folder(matches),
        Command::Many => faulty_spec(matches),
        Command::Pull | Command::Check | Command::Load => None,
    }
}

fn has_form(kind: Kind, text: &[u8]) -> bool {
    match kind {
        Kind::Name => is_collection_name(text),
        Kind::Epoch => epoch_of(Some(text)).is_some(),
        Kind::Mark => text.len() <= MAX_MARK as usize,
        Kind::Service => service_of(text).is_some(),
        Kind::View => is_view(text),
        Kind::Version => version_of(text).is_some(),
        Kind::Address => is_visible(MAX_ADDRESS, text),
        Kind::Target => is_visible(MAX_TARGET, text),
        Kind::Seed => number_in(0, MAX_SEED, text).is_some(),
        Kind::Files => number_in(1, MAX_MADE, text).is_some(),
        Kind::Workers => number_in(1, MAX_WORKERS, text).is_some(),
        Kind::Count => number_in(0, MAX_COUNT, text).is_some(),
        Kind::Keep => number_in(1, MAX_KEPT, text).is_some(),
    }
}

// What a person is told that it must be.
fn form_of(kind: Kind) -> &'static str {
    match kind {
        Kind::Name => NAME_FORM,
        Kind::Epoch => EPOCH_FORM,
        Kind::Mark => MARK_FORM,
        Kind::Service => SERVICE_FORM,
        Kind::View => VIEW_FORM,
        Kind::Version => VERSION_FORM,
        Kind::Address => ADDRESS_FORM,
        Kind::Target => TARGET_FORM,
        Kind::Seed | Kind::Count => COUNT_FORM,
        Kind::Files => FILES_FORM,
        Kind::Workers => WORKERS_FORM,
        Kind::Keep => KEEP_FORM,
    }
}
