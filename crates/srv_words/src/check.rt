//! The job of `check`.
ghost use Rattle.clap.specs.Matches.{found_of};
ghost use Rattle.clap.specs.Walk.{rows_of};
ghost use Rattle.srv_words.specs.Jobs as spec;
ghost use Rattle.srv_words.specs.Reads.{Reads};

use crate::job::{BadWords, Job};
use crate::matches::text_of;
use clap::ArgMatches;
use fm_base::{Bytes, Fail};
use std::alloc::Global;

// The job of `check`, by its matches.
#[tactic(auto, unfolding(crate::specs::Jobs::check_of))]
pub(crate) fn check_job(alloc: Global, matches: &ArgMatches<'_>) -> Result<Job, Fail<BadWords>>
    ensures { Reads (spec.check_of (rows_of (found_of matches.now))) result }
{
    match text_of(matches, "FILE") {
        Some(path) => Ok(Job::Check {
            path: Bytes::copy_of(alloc, path)?,
        }),
        None => Err(Fail::Fault(BadWords)),
    }
}
