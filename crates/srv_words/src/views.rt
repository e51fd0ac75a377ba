//! The jobs of `twod` and `extract`.
ghost use Rattle.std.specs.Prelude.{◌≡◌, IfOk, codes, option_map};
ghost use Rattle.std.specs.Option.{option_and_then};
ghost use Rattle.clap.specs.Matches.{found_of};
ghost use Rattle.clap.specs.Walk.{first_of, rows_of};
ghost use Rattle.srv_words.specs.Jobs as jobs;
ghost use Rattle.srv_words.specs.Reads.{Reads};
ghost use Rattle.srv_words.specs.Views as spec;

use crate::job::{BadWords, Job};
use crate::made::both;
use crate::matches::text_of;
use crate::stepped::changing_of;
use clap::ArgMatches;
use fm_base::{Bytes, Fail, NoMemory};
use std::alloc::Global;

/// Whether a service sends values too.
#[tactic(auto, unfolding(crate::specs::Views::service_of))]
pub(crate) fn service_of(text: &[u8]) -> Option<bool>
    ensures { result ≡ spec.service_of text.now }
{
    if text == b"dds".as_slice() {
        Some(false)
    } else if text == b"dods".as_slice() {
        Some(true)
    } else {
        None
    }
}

/// The version of the format that a text writes.
#[tactic(auto, unfolding(crate::specs::Views::version_of))]
pub(crate) fn version_of(text: &[u8]) -> Option<u8>
    ensures { result ≡ spec.version_of text.now }
{
    if text == b"1".as_slice() {
        Some(1)
    } else if text == b"2".as_slice() {
        Some(2)
    } else {
        None
    }
}

/// Whether a text may be the path of a view: it isn't empty, and has no question mark.
#[tactic(auto, unfolding(crate::specs::Views::is_view))]
pub(crate) fn is_view(text: &[u8]) -> bool
    ensures { result ≡ spec.is_view text.now }
{
    !text.is_empty() && !text.contains(&b'?')
}

// The path of a view.
#[tactic(auto, unfolding(crate::specs::Views::view_of))]
fn view_of<'a>(matches: &ArgMatches<'a>) -> Option<&'a [u8]>
    ensures { option_map (λ view. view.now) result ≡ spec.view_of (rows_of (found_of matches.now)) }
{
    match text_of(matches, "view") {
        Some(view) if is_view(view) => Some(view),
        _ => None,
    }
}

// The constraint, which is empty where none is given.
fn constraint_of<'a>(matches: &ArgMatches<'a>) -> &'a [u8]
    ensures { result.now ≡ spec.constraint_of (first_of (codes "ask") (rows_of (found_of matches.now))) }
{
    match text_of(matches, "ask") {
        Some(text) => text,
        None => b"",
    }
}

// Whether the service of `twod` sends values too.
fn with_values_of(matches: &ArgMatches<'_>) -> Option<bool>
    ensures { result
        ≡ option_and_then spec.service_of (first_of (codes "service") (rows_of (found_of matches.now))) }
{
    service_of(text_of(matches, "service")?)
}

// The version of the format of `extract`.
fn format_of(matches: &ArgMatches<'_>) -> Option<u8>
    ensures { result
        ≡ option_and_then spec.version_of (first_of (codes "format") (rows_of (found_of matches.now))) }
{
    version_of(text_of(matches, "format")?)
}

// The job of `twod`, by its matches.
#[tactic(auto, unfolding(crate::specs::Jobs::twod_of))]
pub(crate) fn twod_job(alloc: Global, matches: &ArgMatches<'_>) -> Result<Job, Fail<BadWords>>
    ensures { Reads (jobs.twod_of (rows_of (found_of matches.now))) result }
{
    let Some(with_values) = with_values_of(matches) else {
        return Err(Fail::Fault(BadWords));
    };
    let constraint = Bytes::copy_of(alloc, constraint_of(matches))?;
    match changing_of(alloc, matches) {
        Ok(stepping) => Ok(Job::Twod {
            stepping,
            with_values,
            constraint,
        }),
        Err(fail) => {
            drop(constraint);
            Err(fail)
        }
    }
}

// The job of `extract`, by its matches.
#[tactic(auto, unfolding(crate::specs::Jobs::extract_of))]
pub(crate) fn extract_job(alloc: Global, matches: &ArgMatches<'_>) -> Result<Job, Fail<BadWords>>
    ensures { Reads (jobs.extract_of (rows_of (found_of matches.now))) result }
{
    let Some(view) = view_of(matches) else {
        return Err(Fail::Fault(BadWords));
    };
    let Some(version) = format_of(matches) else {
        return Err(Fail::Fault(BadWords));
    };
    let stepping = changing_of(alloc, matches)?;
    match both(alloc, view, constraint_of(matches)) {
        Ok((view, constraint)) => Ok(Job::Extract {
            stepping,
            view,
            constraint,
            version,
        }),
        Err(NoMemory) => {
            drop(stepping);
            Err(Fail::NoMemory)
        }
    }
}
