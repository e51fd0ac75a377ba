//! The job of `once`.
ghost use Rattle.clap.specs.Matches.{found_of};
ghost use Rattle.clap.specs.Walk.{rows_of};
ghost use Rattle.srv_words.specs.Jobs as spec;
ghost use Rattle.srv_words.specs.Reads.{Reads};

use crate::job::{BadWords, Job};
use crate::stepped::stepping_of;
use clap::ArgMatches;
use fm_base::Fail;
use std::alloc::Global;

// The job of `once`, by its matches.
#[tactic(auto, unfolding(crate::specs::Jobs::once_of))]
pub(crate) fn once_job(alloc: Global, matches: &ArgMatches<'_>) -> Result<Job, Fail<BadWords>>
    ensures { Reads (spec.once_of (rows_of (found_of matches.now))) result }
{
    Ok(Job::Once(stepping_of(alloc, matches)?))
}
