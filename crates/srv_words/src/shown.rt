//! The help of the program and of its commands. It lists neither `-h` nor a command `help`, which aren't taken.

use crate::command::{fmrcd, subcommand};
use crate::help::{MORE_HELP, PROGRAM_HELP};
use crate::job;
use clap::Command;
use fm_base::NoMemory;
use std::alloc::{AllocError, Global};

/// The help of the program.
pub(crate) fn program_help(alloc: Global) -> Result<String, NoMemory> {
    match fmrcd(alloc) {
        Ok(command) => help_of(command.about(PROGRAM_HELP).after_help(MORE_HELP)),
        Err(NoMemory) => Err(NoMemory),
    }
}

/// The help of a command.
pub(crate) fn command_help(alloc: Global, command: job::Command) -> Result<String, NoMemory> {
    let name = format!(in alloc; "fmrcd {}", command.name())?;
    match subcommand(alloc, command) {
        Ok(command) => help_as(command, name.as_str()),
        Err(NoMemory) => Err(NoMemory),
    }
}

// The help of a command that its usage calls by this name.
fn help_as(command: Command<'_>, name: &str) -> Result<String, NoMemory> {
    match command.bin_name(name) {
        Ok(command) => help_of(command),
        Err(AllocError) => Err(NoMemory),
    }
}

fn help_of(command: Command<'_>) -> Result<String, NoMemory> {
    let mut command = command
        .disable_help_flag(true)
        .disable_help_subcommand(true);
    let help = command.render_help();
    drop(command);
    Ok(help?)
}
