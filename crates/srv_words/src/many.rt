//! The job of `many`.
ghost use Rattle.std.specs.Prelude.{◌≡◌, option_map, map};
ghost use Rattle.clap.specs.Matches.{found_of};
ghost use Rattle.clap.specs.Walk.{rows_of};
ghost use Rattle.srv_words.specs.Jobs as jobs;
ghost use Rattle.srv_words.specs.Many as spec;
ghost use Rattle.srv_words.specs.Reads.{Reads};

use crate::collections::specs_of;
use crate::job::{BadWords, Job, ServingMany, Spec};
use crate::matches::texts_of;
use crate::serve::{Doors, Ticking, doors_of, ticking_of};
use clap::ArgMatches;
use fm_base::{Fail, List};
use std::alloc::Global;

/// The least collections.
pub(crate) const MIN_SPECS: u32 = 2;

/// The most collections.
pub(crate) const MAX_SPECS: u32 = 4;

// The words of the collections, of which there are MIN_SPECS to MAX_SPECS.
#[tactic(auto, unfolding(crate::specs::Many::spec_words_of))]
fn spec_words_of<'m, 'a>(matches: &'m ArgMatches<'a>) -> Option<&'m [&'a str]>
    ensures { option_map (λ list. map (λ word. word.now) list.now) result
        ≡ spec.spec_words_of (rows_of (found_of matches.now)) }
{
    match texts_of(matches, "SPEC") {
        Some(words) if MIN_SPECS as usize <= words.len() && words.len() <= MAX_SPECS as usize => {
            Some(words)
        }
        _ => None,
    }
}

// What is served, of all that the words say.
fn serving_of(doors: Doors, ticking: Ticking, specs: List<Spec>) -> ServingMany
    ensures { result ≡ spec.serving_of doors ticking specs }
{
    ServingMany {
        listen: doors.listen,
        workers: doors.workers,
        connections: doors.connections,
        keep: ticking.keep,
        ticks: ticking.ticks,
        specs,
    }
}

// The job of `many`, by its matches.
#[tactic(auto, unfolding(crate::specs::Jobs::many_of))]
pub(crate) fn many_job(alloc: Global, matches: &ArgMatches<'_>) -> Result<Job, Fail<BadWords>>
    ensures { Reads (jobs.many_of (rows_of (found_of matches.now))) result }
{
    let Some(words) = spec_words_of(matches) else {
        return Err(Fail::Fault(BadWords));
    };
    let Some(ticking) = ticking_of(matches) else {
        return Err(Fail::Fault(BadWords));
    };
    let doors = doors_of(alloc, matches)?;
    match specs_of(alloc, words) {
        Ok(specs) => Ok(Job::Many(serving_of(doors, ticking, specs))),
        Err(fail) => {
            drop(doors);
            Err(fail)
        }
    }
}
