//! The steps on a collection.
ghost use Rattle.std.specs.Prelude.{◌≡◌, Some, map};
ghost use Rattle.srv_words.specs.declared.job.Step.TheVariants.{Put, Retract};
ghost use Rattle.srv_words.specs.Reads.{Reads};
ghost use Rattle.srv_words.specs.Steps as spec;

use crate::job::{BadWords, Step};
use crate::number::number_in;
use crate::values::{from_epoch, rest_of};
use fm_base::{Bytes, Fail, List, NoMemory};
use std::alloc::Global;
use tm_units::read_instant;

/// The most requests that a step answers.
pub(crate) const MAX_ASKED: u32 = 10_000;

// The cutoff of `expire:INSTANT`, in seconds from the epoch.
#[tactic(auto, unfolding(crate::specs::Steps::cutoff_of))]
fn cutoff_of(epoch: i64, word: &[u8]) -> Option<i64>
    ensures { result ≡ spec.cutoff_of epoch word.now }
{
    from_epoch(epoch, read_instant(rest_of(b"expire:", word)?)?)
}

// The number of `ask:NUMBER`.
#[tactic(auto, unfolding(crate::specs::Steps::asked_of))]
fn asked_of(word: &[u8]) -> Option<u32>
    ensures { result ≡ spec.asked_of word.now }
{
    number_in(1, MAX_ASKED, rest_of(b"ask:", word)?)
}

// The step that puts the file at a path.
fn put_of(alloc: Global, path: &[u8]) -> Result<Step, Fail<BadWords>>
    ensures { Reads (Some (Put path.now)) result }
{
    Ok(Step::Put(Bytes::copy_of(alloc, path)?))
}

// The step that takes back the file of a name.
fn retract_of(alloc: Global, name: &[u8]) -> Result<Step, Fail<BadWords>>
    ensures { Reads (Some (Retract name.now)) result }
{
    Ok(Step::Retract(Bytes::copy_of(alloc, name)?))
}

// The step that a word is.
#[tactic(auto, unfolding(crate::specs::Steps::step_of))]
pub(crate) fn step_of(alloc: Global, epoch: i64, word: &[u8]) -> Result<Step, Fail<BadWords>>
    ensures { Reads (spec.step_of epoch word.now) result }
{
    if let Some(path) = rest_of(b"put:", word) {
        put_of(alloc, path)
    } else if let Some(cutoff) = cutoff_of(epoch, word) {
        Ok(Step::Expire(cutoff))
    } else if let Some(name) = rest_of(b"retract:", word) {
        retract_of(alloc, name)
    } else if let Some(count) = asked_of(word) {
        Ok(Step::Ask(count))
    } else {
        Err(Fail::Fault(BadWords))
    }
}

// The steps that words are, one after the other.
#[tactic(auto, using(crate::proofs::StepLemmas::steps), unfolding(crate::specs::Steps::steps_of, crate::specs::Steps::steps_from))]
pub(crate) fn steps_of(
    alloc: Global,
    epoch: i64,
    words: &[&str],
) -> Result<List<Step>, Fail<BadWords>>
    ensures { Reads (spec.steps_of epoch (map (λ word. word.now) words.now)) result }
{
    let mut steps = List::new(alloc);
    for word in words {
        match step_of(alloc, epoch, word.as_bytes()) {
            Ok(step) => {
                if let Err(NoMemory) = steps.push(step) {
                    drop(steps);
                    return Err(Fail::NoMemory);
                }
            }
            Err(fail) => {
                drop(steps);
                return Err(fail);
            }
        }
    }
    Ok(steps)
}
