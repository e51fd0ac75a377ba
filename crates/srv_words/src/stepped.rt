//! A collection and the steps on it, of `once`, `twod` and `extract`.
ghost use Rattle.std.specs.Prelude.{◌≡◌, IfOk, option_map, map};
ghost use Rattle.std.specs.List.{list_all};
ghost use Rattle.clap.specs.Matches.{found_of};
ghost use Rattle.clap.specs.Walk.{rows_of};
ghost use Rattle.srv_words.specs.Reads.{Reads};
ghost use Rattle.srv_words.specs.Stepping as spec;

use crate::job::{BadWords, Step, Stepping};
use crate::matches::{text_of, texts_of};
use crate::site::site_of;
use crate::steps::steps_of;
use clap::ArgMatches;
use fm_base::{Bytes, Fail, List, NoMemory};
use fm_model::Site;
use std::alloc::Global;

// The words of the steps, of which there is one at least.
#[tactic(auto, unfolding(crate::specs::Stepping::step_words_of))]
fn step_words_of<'m, 'a>(matches: &'m ArgMatches<'a>) -> Option<&'m [&'a str]>
    ensures { option_map (λ list. map (λ word. word.now) list.now) result
        ≡ spec.step_words_of (rows_of (found_of matches.now)) }
{
    match texts_of(matches, "STEP") {
        Some(words) if !words.is_empty() => Some(words),
        _ => None,
    }
}

// These steps on a collection of this site.
fn with_steps(
    alloc: Global,
    site: Site,
    proto: &[u8],
    steps: List<Step>,
) -> Result<Stepping, NoMemory>
    ensures { IfOk result (λ stepping. stepping ≡ record { site = site; proto = proto.now; steps = steps }) }
{
    match Bytes::copy_of(alloc, proto) {
        Ok(proto) => Ok(Stepping { site, proto, steps }),
        Err(NoMemory) => {
            drop(site);
            drop(steps);
            Err(NoMemory)
        }
    }
}

// The steps of words on a collection of this site.
#[tactic(auto, unfolding(crate::specs::Stepping::stepping_over))]
fn stepping_over(
    alloc: Global,
    site: Site,
    proto: &[u8],
    words: &[&str],
) -> Result<Stepping, Fail<BadWords>>
    ensures { Reads (spec.stepping_over site proto.now (map (λ word. word.now) words.now)) result }
{
    match steps_of(alloc, site.epoch, words) {
        Ok(steps) => Ok(with_steps(alloc, site, proto, steps)?),
        Err(fail) => {
            drop(site);
            Err(fail)
        }
    }
}

/// A collection and the steps on it, by the matches of a command.
#[tactic(auto, unfolding(crate::specs::Stepping::stepping_of))]
pub(crate) fn stepping_of(
    alloc: Global,
    matches: &ArgMatches<'_>,
) -> Result<Stepping, Fail<BadWords>>
    ensures { Reads (spec.stepping_of (rows_of (found_of matches.now))) result }
{
    let Some(proto) = text_of(matches, "proto") else {
        return Err(Fail::Fault(BadWords));
    };
    let Some(words) = step_words_of(matches) else {
        return Err(Fail::Fault(BadWords));
    };
    let site = site_of(alloc, matches)?;
    stepping_over(alloc, site, proto, words)
}

/// Whether a step changes the collection.
pub(crate) fn is_change(step: &Step) -> bool
    ensures { result ≡ spec.is_change step.now }
{
    !matches!(step, Step::Ask(_))
}

// Whether all steps change the collection.
fn are_changes(steps: &[Step]) -> bool
    ensures { result ≡ list_all spec.is_change steps.now }
{
    steps.iter().all(is_change)
}

/// A collection and the steps that change it, by the matches of a command.
#[tactic(auto, unfolding(crate::specs::Stepping::changing_of))]
pub(crate) fn changing_of(
    alloc: Global,
    matches: &ArgMatches<'_>,
) -> Result<Stepping, Fail<BadWords>>
    ensures { Reads (spec.changing_of (rows_of (found_of matches.now))) result }
{
    let stepping = stepping_of(alloc, matches)?;
    if are_changes(stepping.steps.as_slice()) {
        Ok(stepping)
    } else {
        drop(stepping);
        Err(Fail::Fault(BadWords))
    }
}
