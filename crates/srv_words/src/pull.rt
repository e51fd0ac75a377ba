//! The job of `pull`.
ghost use Rattle.std.specs.Prelude.{◌≡◌, option_map};
ghost use Rattle.std.specs.List.{list_all};
ghost use Rattle.std.specs.Option.{option_and_then};
ghost use Rattle.clap.specs.Matches.{found_of};
ghost use Rattle.clap.specs.Walk.{first_of, rows_of};
ghost use Rattle.srv_words.specs.Jobs as jobs;
ghost use Rattle.srv_words.specs.Reads.{Reads};
ghost use Rattle.srv_words.specs.Values as spec;

use crate::job::{BadWords, Job};
use crate::made::both;
use crate::matches::text_of;
use crate::values::is_visible;
use clap::ArgMatches;
use fm_base::Fail;
use std::alloc::Global;

/// The most bytes of an address that is dialled.
pub(crate) const MAX_ADDRESS: u32 = 255;

/// The most bytes of a target.
pub(crate) const MAX_TARGET: u32 = 8_000;

// The value of an argument, which has visible characters alone.
#[tactic(auto, unfolding(crate::specs::Values::visible_of))]
fn visible_of<'a>(matches: &ArgMatches<'a>, id: &str, most: u32) -> Option<&'a [u8]>
    ensures { option_map (λ text. text.now) result
        ≡ option_and_then (spec.visible_of most) (first_of id.now (rows_of (found_of matches.now))) }
{
    match text_of(matches, id) {
        Some(text) if is_visible(most, text) => Some(text),
        _ => None,
    }
}

// The job of `pull`, by its matches.
#[tactic(auto, unfolding(crate::specs::Jobs::pull_of))]
pub(crate) fn pull_job(alloc: Global, matches: &ArgMatches<'_>) -> Result<Job, Fail<BadWords>>
    ensures { Reads (jobs.pull_of (rows_of (found_of matches.now))) result }
{
    let Some(address) = visible_of(matches, "connect", MAX_ADDRESS) else {
        return Err(Fail::Fault(BadWords));
    };
    let Some(target) = visible_of(matches, "TARGET", MAX_TARGET) else {
        return Err(Fail::Fault(BadWords));
    };
    let (address, target) = both(alloc, address, target)?;
    Ok(Job::Pull { address, target })
}
