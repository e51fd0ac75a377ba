//! The job that words are.
ghost use Rattle.std.specs.Prelude.{◌≡◌, true, false, IfOk, OnOk, map};
ghost use Rattle.std.specs.List.{list_all};
ghost use Rattle.std.specs.Str.{is_utf8};
ghost use Rattle.clap.specs.Matches.{found_of};
ghost use Rattle.clap.specs.Simple.{subcommand_rows_of};
ghost use Rattle.clap.specs.Walk.{rows_of};
ghost use Rattle.fm_base.specs.Answer.{OnFault};
ghost use Rattle.srv_words.specs.Jobs as spec;
ghost use Rattle.srv_words.specs.Jobs.{IsJob};
ghost use Rattle.srv_words.specs.Reads.{Reads};

use crate::asked::command_named;
use crate::check::check_job;
use crate::job::{BadWords, Command, Job};
use crate::load::load_job;
use crate::many::many_job;
use crate::matches::{parsed, subcommand_of};
use crate::once::once_job;
use crate::pull::pull_job;
use crate::serve::serve_job;
use crate::views::{extract_job, twod_job};
use clap::ArgMatches;
use fm_base::{Bytes, Fail, List};
use std::alloc::Global;
use std::str;

// The words as texts.
pub(crate) fn texts_of<'a>(
    alloc: Global,
    words: &'a [Bytes],
) -> Result<Vec<&'a str>, Fail<BadWords>>
    ensures texts { IfOk result (λ texts. map (λ text. text.now) texts.items ≡ words.now) }
    ensures utf8 { OnOk result (list_all is_utf8 words.now ≡ true) }
    ensures other { OnFault result (list_all is_utf8 words.now ≡ false) }
{
    let mut texts = Vec::new(alloc);
    for word in words {
        let Ok(text) = str::from_utf8(word.as_slice()) else {
            drop(texts);
            return Err(Fail::Fault(BadWords));
        };
        texts.push(text)?;
    }
    Ok(texts)
}

// The job of a command, by its matches.
fn job_as(alloc: Global, command: Command, matches: &ArgMatches<'_>) -> Result<Job, Fail<BadWords>>
    ensures { Reads (spec.job_as command (rows_of (found_of matches.now))) result }
{
    match command {
        Command::Once => once_job(alloc, matches),
        Command::Twod => twod_job(alloc, matches),
        Command::Extract => extract_job(alloc, matches),
        Command::Pull => pull_job(alloc, matches),
        Command::Check => check_job(alloc, matches),
        Command::Load => load_job(matches),
        Command::Serve => serve_job(alloc, matches),
        Command::Many => many_job(alloc, matches),
    }
}

// The job of a subcommand, by its matches.
#[tactic(auto, unfolding(crate::specs::Jobs::job_in))]
fn job_in(alloc: Global, name: &str, matches: &ArgMatches<'_>) -> Result<Job, Fail<BadWords>>
    ensures { Reads (spec.job_in name.now (rows_of (found_of matches.now))) result }
{
    match command_named(name.as_bytes()) {
        Some(command) => job_as(alloc, command, matches),
        None => Err(Fail::Fault(BadWords)),
    }
}

// The job of the subcommand that was found in the words.
#[tactic(auto, using(crate::proofs::FoundLemmas::found))]
fn job_of_found(alloc: Global, matches: &ArgMatches<'_>) -> Result<Job, Fail<BadWords>>
    ensures { Reads (spec.job_of_found (subcommand_rows_of matches.now)) result }
{
    match subcommand_of(matches) {
        Some((name, matches)) => job_in(alloc, name, matches),
        None => Err(Fail::Fault(BadWords)),
    }
}

// The job that texts are.
#[tactic(auto, using(crate::proofs::FoundLemmas::found))]
fn job_of_texts(alloc: Global, texts: &[&str]) -> Result<Job, Fail<BadWords>>
    ensures { Reads (spec.job_of_texts (map (λ text. text.now) texts.now)) result }
{
    match parsed(alloc, texts) {
        Ok(matches) => {
            let job = job_of_found(alloc, &matches);
            drop(matches);
            job
        }
        Err(Fail::Fault(error)) => {
            drop(error);
            Err(Fail::Fault(BadWords))
        }
        Err(Fail::NoMemory) => Err(Fail::NoMemory),
    }
}

// The job that the words are.
#[tactic(auto, using(crate::proofs::FoundLemmas::found))]
fn job_of(alloc: Global, words: &[Bytes]) -> Result<Job, Fail<BadWords>>
    ensures { Reads (spec.job_of words.now) result }
{
    let texts = texts_of(alloc, words)?;
    let job = job_of_texts(alloc, texts.as_slice());
    drop(texts);
    job
}

/// The job that the words after the program's name are. `BadWords` comes exactly where `clap` doesn't take them, a word
/// isn't UTF-8, or a value hasn't its form.
#[tactic(auto, using(crate::proofs::JobLemmas::IsJob_of))]
pub fn read_job(alloc: Global, words: &List<Bytes>) -> Result<Job, Fail<BadWords>>
    ensures exact { Reads (spec.job_of words.now) result }

    // Each value lies in its range.
    ensures sound { IfOk result IsJob }
{
    let job = job_of(alloc, words.as_slice())?;
    Ok(job)
}
