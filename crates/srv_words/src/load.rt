//! The job of `load`.
ghost use Rattle.std.specs.Prelude.{◌≡◌};
ghost use Rattle.std.specs.Option.{option_and_then};
ghost use Rattle.clap.specs.Matches.{found_of};
ghost use Rattle.clap.specs.Walk.{first_of, rows_of};
ghost use Rattle.srv_words.specs.Jobs as spec;
ghost use Rattle.srv_words.specs.Reads.{Reads};
ghost use Rattle.srv_words.specs.Values as values;

use crate::job::{BadWords, Job};
use crate::matches::text_of;
use crate::number::number_in;
use clap::ArgMatches;
use fm_base::Fail;

/// The most files that are made.
pub(crate) const MAX_MADE: u32 = 400;

/// The greatest seed.
pub(crate) const MAX_SEED: u32 = 4_294_967_295;

// The number in a range that a word writes.
fn number_of(matches: &ArgMatches<'_>, id: &str, least: u32, most: u32) -> Option<u32>
    ensures { result
        ≡ option_and_then (values.number_in least most) (first_of id.now (rows_of (found_of matches.now))) }
{
    number_in(least, most, text_of(matches, id)?)
}

// The job of `load`, by its matches.
#[tactic(auto, unfolding(crate::specs::Jobs::load_of))]
pub(crate) fn load_job(matches: &ArgMatches<'_>) -> Result<Job, Fail<BadWords>>
    ensures { Reads (spec.load_of (rows_of (found_of matches.now))) result }
{
    let Some(seed) = number_of(matches, "SEED", 0, MAX_SEED) else {
        return Err(Fail::Fault(BadWords));
    };
    match number_of(matches, "FILES", 1, MAX_MADE) {
        Some(files) => Ok(Job::Load { seed, files }),
        None => Err(Fail::Fault(BadWords)),
    }
}
