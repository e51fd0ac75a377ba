//! The arguments of a command, as `clap` takes them.
ghost use Rattle.std.specs.Prelude.{◌≡◌, [], false, Some, IfOk, OnOk, map};
ghost use Rattle.clap.specs.Simple.{new_rule};
ghost use Rattle.clap.specs.Walk.{rule_of};
ghost use Rattle.srv_words.specs.Command as spec;

use crate::arguments::{Argument, Form};
use clap::{Arg, ArgAction};
use fm_base::NoMemory;
use std::alloc::Global;

// An argument with one value or several.
fn taking<'a>(
    alloc: Global,
    id: &'a str,
    help: &'a str,
    action: ArgAction,
    required: bool,
) -> Arg<'a>
    ensures rule { rule_of result ≡ record (new_rule id.entry.now) { action = Some action; required = required } }
    ensures local { result.global ≡ false }
{
    Arg::new(alloc, id)
        .action(action)
        .help(help)
        .required(required)
}

// A long option with one value, which the help calls by a name.
fn option<'a>(alloc: Global, id: &'a str, value: &'a str, help: &'a str, required: bool) -> Arg<'a>
    ensures rule { rule_of result ≡ spec.option id.entry.now required }
    ensures local { result.global ≡ false }
{
    taking(alloc, id, help, ArgAction::Set, required)
        .long(id)
        .value_name(value)
}

// A long option without a value.
fn flag<'a>(alloc: Global, id: &'a str, help: &'a str) -> Arg<'a>
    ensures rule { rule_of result ≡ spec.flag id.entry.now }
    ensures local { result.global ≡ false }
{
    taking(alloc, id, help, ArgAction::SetTrue, false).long(id)
}

// An argument as `clap` takes it, of one command alone and not of the commands below it.
fn arg_of<'a>(alloc: Global, argument: Argument) -> Arg<'a>
    ensures rule { rule_of result ≡ spec.rule_in argument.entry }
    ensures local { result.global ≡ false }
{
    let (id, form, help) = argument;
    match form {
        Form::Needed(value) => option(alloc, id, value, help, true),
        Form::Optional(value) => option(alloc, id, value, help, false),
        Form::Flag => flag(alloc, id, help),
        Form::Word => taking(alloc, id, help, ArgAction::Set, true),
        Form::Words => taking(alloc, id, help, ArgAction::Append, true),
    }
}

// Adds an argument.
fn put<'a>(alloc: Global, argument: Argument, args: &mut Vec<Arg<'a>>) -> Result<(), NoMemory>
    ensures rules { OnOk result (spec.rules_in args.new.items
        ≡ spec.one_more (spec.rules_in args.old.items) (spec.rule_in argument.entry)) }
    ensures local { OnOk result (spec.are_local args.old.items → spec.are_local args.new.items) }
{
    Ok(args.push(arg_of(alloc, argument))?)
}

/// The arguments of a table.
pub(crate) fn args_from<'a>(alloc: Global, arguments: &[Argument]) -> Result<Vec<Arg<'a>>, NoMemory>
    ensures rules { IfOk result (λ args. spec.rules_in args.items ≡ map spec.rule_in arguments.now) }
    ensures local { IfOk result (λ args. spec.are_local args.items) }
{
    let mut args = Vec::new(alloc);
    for argument in arguments {
        if let Err(NoMemory) = put(alloc, *argument, &mut args) {
            drop(args);
            return Err(NoMemory);
        }
    }
    Ok(args)
}
