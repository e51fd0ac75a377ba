//! The command as `clap` takes it apart.
ghost use Rattle.std.specs.Prelude.{◌≡◌, ◌++◌, ◌∷◌, [], true, false, IfOk, OnOk, map};
ghost use Rattle.clap.specs.Simple.{app_of, new_app, on_top};
ghost use Rattle.clap.specs.declared.builder.command.Command.TheViews.{out-Command};
ghost use Rattle.srv_words.specs.Command as spec;

use crate::args::args_from;
use crate::arguments::arguments_of;
use crate::help::{
    CHECK_HELP, EXTRACT_HELP, LOAD_HELP, MANY_HELP, ONCE_HELP, PULL_HELP, SERVE_HELP, TWOD_HELP,
};
use crate::job;
use crate::made::made;
use clap::Command;
use fm_base::NoMemory;
use std::alloc::Global;

// The commands, in the order of the help.
const COMMANDS: &[job::Command] = &[
    job::Command::Serve,
    job::Command::Many,
    job::Command::Once,
    job::Command::Twod,
    job::Command::Extract,
    job::Command::Pull,
    job::Command::Check,
    job::Command::Load,
];

// What the help says of a command.
fn help_of<'a>(command: job::Command) -> &'a str {
    match command {
        job::Command::Once => ONCE_HELP,
        job::Command::Twod => TWOD_HELP,
        job::Command::Extract => EXTRACT_HELP,
        job::Command::Pull => PULL_HELP,
        job::Command::Check => CHECK_HELP,
        job::Command::Load => LOAD_HELP,
        job::Command::Serve => SERVE_HELP,
        job::Command::Many => MANY_HELP,
    }
}

// A command without its arguments.
fn named<'a>(alloc: Global, command: job::Command) -> Command<'a>
    ensures app { app_of result ≡ new_app (spec.name_of command) }
    ensures plain { (out-Command result).has_globals ≡ false }
{
    Command::new(alloc, command.name()).about(help_of(command))
}

/// A command with all that stands behind it.
pub(crate) fn subcommand<'a>(alloc: Global, command: job::Command) -> Result<Command<'a>, NoMemory>
    ensures app { IfOk result (λ c. app_of c ≡ spec.subcommand command) }
    ensures plain { IfOk result (λ c. (out-Command c).has_globals ≡ false) }
{
    let arguments = args_from(alloc, arguments_of(command))?;
    made(named(alloc, command).args(arguments))
}

// Adds a command with all that stands behind it.
fn put<'a>(
    alloc: Global,
    command: job::Command,
    list: &mut Vec<Command<'a>>,
) -> Result<(), NoMemory>
    ensures apps { OnOk result (map app_of list.new.items ≡ map app_of list.old.items ++ spec.subcommand command ∷ []) }
    ensures plain { OnOk result (spec.are_plain list.old.items → spec.are_plain list.new.items) }
{
    let command = subcommand(alloc, command)?;
    Ok(list.push(command)?)
}

// Commands with all that stands behind them.
fn commands_from<'a>(alloc: Global, commands: &[job::Command]) -> Result<Vec<Command<'a>>, NoMemory>
    ensures apps { IfOk result (λ list. map app_of list.items ≡ map spec.subcommand commands.now) }
    ensures plain { IfOk result (λ list. spec.are_plain list.items) }
{
    let mut list = Vec::new(alloc);
    for command in commands {
        if let Err(NoMemory) = put(alloc, *command, &mut list) {
            drop(list);
            return Err(NoMemory);
        }
    }
    Ok(list)
}

// A command that wants a subcommand, and is given the words after the program's name.
fn wanting<'a>(command: Command<'a>) -> Command<'a>
    ensures { app_of result ≡ on_top (λ s. record s { no_binary_name = true; subcommand_required = true })
        (app_of command.entry) }
{
    command.no_binary_name(true).subcommand_required(true)
}

// The command without its subcommands. Its usage begins with the program's name.
fn top<'a>(alloc: Global) -> Result<Command<'a>, NoMemory>
    ensures { IfOk result (λ c. app_of c ≡ spec.top) }
{
    made(wanting(Command::new(alloc, "fmrcd")).bin_name("fmrcd"))
}

/// The command, with all that it says of itself.
pub(crate) fn fmrcd<'a>(alloc: Global) -> Result<Command<'a>, NoMemory>
    ensures { IfOk result (λ c. app_of c ≡ spec.fmrcd) }
{
    let list = commands_from(alloc, COMMANDS)?;
    match top(alloc) {
        Ok(command) => made(command.subcommands(list)),
        Err(NoMemory) => {
            drop(list);
            Err(NoMemory)
        }
    }
}
