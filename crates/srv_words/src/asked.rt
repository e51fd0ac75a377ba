//! Words that ask for a text: the help or the version.
ghost use Rattle.std.specs.Prelude.{◌≡◌, IfOk, None, Some, codes, if◌then◌else◌, is_some};
ghost use Rattle.std.specs.Str.{bytes_eq};
ghost use Rattle.srv_words.specs.declared.job.Command.TheVariants.{Check, Load, Many, Serve};
ghost use Rattle.srv_words.specs.Asked as spec;

use crate::help::VERSION;
use crate::job::Command;
use crate::shown::{command_help, program_help};
use fm_base::{Bytes, List, NoMemory};
use std::alloc::Global;

// What words ask for: the help of the program, that of a command, or the version.
#[derive(Clone, Copy)]
enum Asked {
    Help,
    HelpOf(Command),
    Version,
}

/// The command of a name.
#[tactic(auto, unfolding(crate::specs::Asked::command_named))]
pub(crate) fn command_named(name: &[u8]) -> Option<Command>
    ensures { result ≡ spec.command_named name.now }
{
    if name == b"once".as_slice() {
        Some(Command::Once)
    } else if name == b"twod".as_slice() {
        Some(Command::Twod)
    } else if name == b"extract".as_slice() {
        Some(Command::Extract)
    } else if name == b"pull".as_slice() {
        Some(Command::Pull)
    } else {
        command_without_steps(name)
    }
}

// The same of those that do no steps on one collection, and pull nothing.
fn command_without_steps(name: &[u8]) -> Option<Command>
    ensures { result
        ≡ (if bytes_eq name.now (codes "check") then Some Check
        else (if bytes_eq name.now (codes "load") then Some Load
        else (if bytes_eq name.now (codes "serve") then Some Serve
        else (if bytes_eq name.now (codes "many") then Some Many else None)))) }
{
    if name == b"check".as_slice() {
        Some(Command::Check)
    } else if name == b"load".as_slice() {
        Some(Command::Load)
    } else if name == b"serve".as_slice() {
        Some(Command::Serve)
    } else if name == b"many".as_slice() {
        Some(Command::Many)
    } else {
        None
    }
}

#[tactic(auto, unfolding(crate::specs::Asked::asked_alone))]
fn asked_alone(word: &[u8]) -> Option<Asked>
    ensures { result ≡ spec.asked_alone word.now }
{
    if word == b"--help".as_slice() {
        Some(Asked::Help)
    } else if word == b"--version".as_slice() {
        Some(Asked::Version)
    } else {
        None
    }
}

#[tactic(auto, unfolding(crate::specs::Asked::asked_behind))]
fn asked_behind(name: &[u8], word: &[u8]) -> Option<Asked>
    ensures { result ≡ spec.asked_behind name.now word.now }
{
    if word != b"--help".as_slice() {
        return None;
    }
    match command_named(name) {
        Some(command) => Some(Asked::HelpOf(command)),
        None => None,
    }
}

#[tactic(auto, unfolding(crate::specs::Asked::asked_of))]
fn asked_of(words: &[Bytes]) -> Option<Asked>
    ensures { result ≡ spec.asked_of words.now }
{
    match words {
        [word] => asked_alone(word.as_slice()),
        [name, word] => asked_behind(name.as_slice(), word.as_slice()),
        _ => None,
    }
}

fn text_of(alloc: Global, asked: Asked) -> Result<String, NoMemory> {
    match asked {
        Asked::Help => program_help(alloc),
        Asked::HelpOf(command) => command_help(alloc, command),
        Asked::Version => Ok(String::from_str(alloc, VERSION)?),
    }
}

/// The text that words ask for: with `--help` alone the help of the program, with a command and `--help` that of the
/// command, with `--version` alone the version.
pub fn text_asked(alloc: Global, words: &List<Bytes>) -> Result<Option<String>, NoMemory>
    // There is one exactly where the words ask for one. No clause speaks of what stands in it.
    ensures { IfOk result (λ text. is_some text ≡ is_some (spec.asked_of words.now)) }
{
    let Some(asked) = asked_of(words.as_slice()) else {
        return Ok(None);
    };
    let text = text_of(alloc, asked)?;
    Ok(Some(text))
}
