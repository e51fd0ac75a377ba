//! The job of `serve`.
ghost use Rattle.std.specs.Prelude.{◌≡◌, ◌∷◌, ◌++◌, [], IfOk, OnOk, option_map, map};
ghost use Rattle.clap.specs.Matches.{found_of};
ghost use Rattle.clap.specs.Walk.{rows_of};
ghost use Rattle.srv_words.specs.Jobs as jobs;
ghost use Rattle.srv_words.specs.Reads.{Reads};
ghost use Rattle.srv_words.specs.Serve as spec;

use crate::job::{BadWords, Job, Serving};
use crate::matches::{text_of, texts_of};
use crate::number::number_in;
use crate::site::site_of;
use clap::ArgMatches;
use fm_base::{Bytes, Fail, List, NoMemory};
use fm_model::Site;
use std::alloc::Global;

/// The most workers.
pub(crate) const MAX_WORKERS: u32 = 16;

/// How many workers there are where the words don't say it.
pub(crate) const DEFAULT_WORKERS: u32 = 4;

/// The most connections of a worker, and the most ticks.
pub(crate) const MAX_COUNT: u32 = 4_294_967_295;

/// The most seconds for which a run is kept.
pub(crate) const MAX_KEPT: u32 = 1_073_741_823;

/// The most folders.
pub(crate) const MAX_INBOXES: u32 = 8;

/// Where connections are taken, how many workers take them, and how many each.
#[derive(Drop)]
pub(crate) struct Doors {
    pub listen: Bytes,
    pub workers: u32,
    pub connections: u32,
}

/// For how many seconds a run is kept, and after how many ticks the clock ends.
#[derive(Clone, Copy)]
pub(crate) struct Ticking {
    pub keep: Option<u32>,
    pub ticks: u32,
}

// The number of an option, and the default where it doesn't stand.
#[tactic(auto, unfolding(crate::specs::Serve::number_or))]
fn number_or(default: u32, least: u32, most: u32, given: Option<&[u8]>) -> Option<u32>
    ensures { result ≡ spec.number_or default least most (option_map (λ text. text.now) given.entry) }
{
    let Some(text) = given else {
        return Some(default);
    };
    number_in(least, most, text)
}

// For how many seconds a run is kept, which need not be said.
#[tactic(auto, unfolding(crate::specs::Serve::keep_of))]
fn keep_of(given: Option<&[u8]>) -> Option<Option<u32>>
    ensures { result ≡ spec.keep_of (option_map (λ text. text.now) given.entry) }
{
    let Some(text) = given else {
        return Some(None);
    };
    let seconds = number_in(1, MAX_KEPT, text)?;
    Some(Some(seconds))
}

/// The options of a door.
#[tactic(auto, unfolding(crate::specs::Serve::doors_of))]
pub(crate) fn doors_of(alloc: Global, matches: &ArgMatches<'_>) -> Result<Doors, Fail<BadWords>>
    ensures { Reads (spec.doors_of (rows_of (found_of matches.now))) result }
{
    let Some(listen) = text_of(matches, "listen") else {
        return Err(Fail::Fault(BadWords));
    };
    let Some(workers) = number_or(DEFAULT_WORKERS, 1, MAX_WORKERS, text_of(matches, "workers"))
    else {
        return Err(Fail::Fault(BadWords));
    };
    let Some(connections) = number_or(0, 0, MAX_COUNT, text_of(matches, "connections")) else {
        return Err(Fail::Fault(BadWords));
    };
    Ok(Doors {
        listen: Bytes::copy_of(alloc, listen)?,
        workers,
        connections,
    })
}

/// The options of a clock.
#[tactic(auto, unfolding(crate::specs::Serve::ticking_of))]
pub(crate) fn ticking_of(matches: &ArgMatches<'_>) -> Option<Ticking>
    ensures { result ≡ spec.ticking_of (rows_of (found_of matches.now)) }
{
    let keep = keep_of(text_of(matches, "keep"))?;
    let ticks = number_or(0, 0, MAX_COUNT, text_of(matches, "ticks"))?;
    Some(Ticking { keep, ticks })
}

// The words of the folders, of which there are 1 to MAX_INBOXES.
#[tactic(auto, unfolding(crate::specs::Serve::inboxes_of))]
fn inboxes_of<'m, 'a>(matches: &'m ArgMatches<'a>) -> Option<&'m [&'a str]>
    ensures { option_map (λ list. map (λ word. word.now) list.now) result
        ≡ spec.inboxes_of (rows_of (found_of matches.now)) }
{
    match texts_of(matches, "INBOX") {
        Some(words) if !words.is_empty() && words.len() <= MAX_INBOXES as usize => Some(words),
        _ => None,
    }
}

// Adds a copy of a word.
fn put_copy(alloc: Global, word: &[u8], copies: &mut List<Bytes>) -> Result<(), NoMemory>
    ensures { OnOk result (copies.new ≡ copies.old ++ word.now ∷ []) }
{
    let copy = Bytes::copy_of(alloc, word)?;
    copies.push(copy)
}

// A copy of each word.
fn copies_of(alloc: Global, words: &[&str]) -> Result<List<Bytes>, NoMemory>
    ensures { IfOk result (λ copies. copies ≡ map (λ word. word.now) words.now) }
{
    let mut copies = List::new(alloc);
    for word in words {
        if let Err(NoMemory) = put_copy(alloc, word.as_bytes(), &mut copies) {
            drop(copies);
            return Err(NoMemory);
        }
    }
    Ok(copies)
}

// The path of the prototype and the folders, in memory of their own.
fn texts_with(alloc: Global, proto: &[u8], words: &[&str]) -> Result<(Bytes, List<Bytes>), NoMemory>
    ensures { IfOk result (λ texts. texts ≡ (proto.now, map (λ word. word.now) words.now)) }
{
    let proto = Bytes::copy_of(alloc, proto)?;
    match copies_of(alloc, words) {
        Ok(inboxes) => Ok((proto, inboxes)),
        Err(NoMemory) => {
            drop(proto);
            Err(NoMemory)
        }
    }
}

// What is served, with the texts of its options in memory of their own.
fn serving_of(
    alloc: Global,
    site: Site,
    proto: &[u8],
    doors: Doors,
    ticking: Ticking,
    words: &[&str],
) -> Result<Serving, NoMemory>
    ensures { IfOk result (λ serving.
        serving ≡ spec.serving_of site proto.now doors ticking (map (λ word. word.now) words.now)) }
{
    match texts_with(alloc, proto, words) {
        Ok((proto, inboxes)) => Ok(Serving {
            site,
            proto,
            listen: doors.listen,
            workers: doors.workers,
            connections: doors.connections,
            keep: ticking.keep,
            ticks: ticking.ticks,
            inboxes,
        }),
        Err(NoMemory) => {
            drop(site);
            drop(doors);
            Err(NoMemory)
        }
    }
}

// The job of `serve`, by its matches.
#[tactic(auto, unfolding(crate::specs::Jobs::serve_of))]
pub(crate) fn serve_job(alloc: Global, matches: &ArgMatches<'_>) -> Result<Job, Fail<BadWords>>
    ensures { Reads (jobs.serve_of (rows_of (found_of matches.now))) result }
{
    let Some(proto) = text_of(matches, "proto") else {
        return Err(Fail::Fault(BadWords));
    };
    let Some(words) = inboxes_of(matches) else {
        return Err(Fail::Fault(BadWords));
    };
    let Some(ticking) = ticking_of(matches) else {
        return Err(Fail::Fault(BadWords));
    };
    let site = site_of(alloc, matches)?;
    match doors_of(alloc, matches) {
        Ok(doors) => Ok(Job::Serve(serving_of(alloc, site, proto, doors, ticking, words)?)),
        Err(fail) => {
            drop(site);
            Err(fail)
        }
    }
}
