//! What `clap` finds in the words.
ghost use Rattle.std.specs.Prelude.{◌≡◌, true, false, option_map, map, IfOk, OnOk};
ghost use Rattle.clap.specs.Faults.{fault_of};
ghost use Rattle.clap.specs.Kinds.{FailsBy};
ghost use Rattle.clap.specs.Matches.{found_of};
ghost use Rattle.clap.specs.Simple.{app_of, subcommand_rows_of};
ghost use Rattle.clap.specs.Walk.{all_of, first_of, rows_of};
ghost use Rattle.fm_base.specs.Answer.{OnFault};
ghost use Rattle.srv_words.specs.Command as spec;

use crate::command::fmrcd;
use clap::error::ErrorKind;
use clap::{ArgMatches, Command, Error};
use fm_base::Fail;
use std::alloc::Global;

// What words match in the command, or `clap`'s error.
fn matched<'a>(command: Command<'a>, words: &'a [&'a str]) -> Result<ArgMatches<'a>, Error>
    requires { app_of command ≡ spec.fmrcd }
    ensures used { IfOk result (λ m. subcommand_rows_of m ≡ spec.used (map (λ word. word.now) words.entry.now)) }
    ensures kinds { FailsBy (fault_of spec.fmrcd (map (λ word. word.now) words.entry.now)) result }
{
    command.try_get_matches_from(words)
}

// The matches of the words where the command takes them, and else the error of `clap`.
#[tactic(auto, using(crate::proofs::CommandLemmas::kinds), unfolding(crate::specs::Command::is_taken))]
pub(crate) fn parsed<'a>(alloc: Global, words: &'a [&'a str]) -> Result<ArgMatches<'a>, Fail<Error>>
    ensures taken { OnOk result (spec.is_taken (map (λ word. word.now) words.entry.now) ≡ true) }
    ensures used { IfOk result (λ m. subcommand_rows_of m ≡ spec.used (map (λ word. word.now) words.entry.now)) }
    ensures other { OnFault result (spec.is_taken (map (λ word. word.now) words.entry.now) ≡ false) }
{
    match matched(fmrcd(alloc)?, words) {
        Ok(matches) => Ok(matches),
        Err(error) => match error.kind() {
            ErrorKind::OutOfMemory => {
                drop(error);
                Err(Fail::NoMemory)
            }
            _ => Err(Fail::Fault(error)),
        },
    }
}

// The value of an option or of a single word.
#[tactic(auto, using(crate::proofs::RowLemmas::rows))]
pub(crate) fn text_of<'a>(matches: &ArgMatches<'a>, id: &str) -> Option<&'a [u8]>
    ensures { option_map (λ text. text.now) result ≡ first_of id.now (rows_of (found_of matches.now)) }
{
    match matches.get_str(id) {
        Some(text) => Some(text.as_bytes()),
        None => None,
    }
}

// The values of words of which there may be several.
#[tactic(auto, using(crate::proofs::RowLemmas::rows))]
pub(crate) fn texts_of<'m, 'a>(matches: &'m ArgMatches<'a>, id: &str) -> Option<&'m [&'a str]>
    ensures { option_map (λ list. map (λ text. text.now) list.now) result
        ≡ all_of id.now (rows_of (found_of matches.now)) }
{
    matches.get_strs(id)
}

// The subcommand that the words name, with what was found in it.
#[tactic(auto, using(crate::proofs::RowLemmas::rows))]
pub(crate) fn subcommand_of<'m, 'a>(
    matches: &'m ArgMatches<'a>,
) -> Option<(&'a str, &'m ArgMatches<'a>)>
    ensures { option_map (λ p. (p.0.now, rows_of (found_of p.1.now))) result ≡ subcommand_rows_of matches.now }
{
    matches.subcommand()
}
