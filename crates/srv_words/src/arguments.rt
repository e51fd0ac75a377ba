//! The arguments of each command: options, and words that stand for themselves.
ghost use Rattle.std.specs.Prelude.{◌≡◌, [], map};
ghost use Rattle.srv_words.specs.Command as spec;

use crate::help::{
    ASK_HELP, CHANGE_HELP, CONNECT_HELP, CONNECTIONS_HELP, EPOCH_HELP, FILE_HELP, FILES_HELP,
    FORMAT_HELP, INBOX_HELP, KEEP_HELP, LISTEN_HELP, MARK_HELP, NAME_HELP, PROTO_HELP, QUIET_HELP,
    SEED_HELP, SERVICE_HELP, SPEC_HELP, STEP_HELP, TARGET_HELP, TICKS_HELP, VIEW_HELP,
    WORKERS_HELP,
};
use crate::job::Command;

/// How an argument stands in the words. The help calls the value of an option by the name that is given here.
#[derive(Clone, Copy)]
pub(crate) enum Form {
    /// An option that has to stand.
    Needed(&'static str),
    /// An option that may be left out.
    Optional(&'static str),
    /// An option without a value.
    Flag,
    /// A word that has to stand.
    Word,
    /// One word or more.
    Words,
}

/// The id of an argument, its form, and what the help says of it.
pub(crate) type Argument = (&'static str, Form, &'static str);

const NAME: Argument = ("name", Form::Needed("NAME"), NAME_HELP);

const PROTO: Argument = ("proto", Form::Needed("PATH"), PROTO_HELP);

const EPOCH: Argument = ("epoch", Form::Optional("INSTANT"), EPOCH_HELP);

const MARK: Argument = ("mark", Form::Optional("MARK"), MARK_HELP);

const SERVICE: Argument = ("service", Form::Needed("SERVICE"), SERVICE_HELP);

const VIEW: Argument = ("view", Form::Needed("VIEW"), VIEW_HELP);

const ASK: Argument = ("ask", Form::Optional("CONSTRAINT"), ASK_HELP);

const FORMAT: Argument = ("format", Form::Needed("VERSION"), FORMAT_HELP);

const STEPS: Argument = ("STEP", Form::Words, STEP_HELP);

const CHANGES: Argument = ("STEP", Form::Words, CHANGE_HELP);

const LISTEN: Argument = ("listen", Form::Needed("ADDRESS"), LISTEN_HELP);

const WORKERS: Argument = ("workers", Form::Optional("NUMBER"), WORKERS_HELP);

const CONNECTIONS: Argument = ("connections", Form::Optional("NUMBER"), CONNECTIONS_HELP);

const KEEP: Argument = ("keep", Form::Optional("SECONDS"), KEEP_HELP);

const TICKS: Argument = ("ticks", Form::Optional("NUMBER"), TICKS_HELP);

const QUIET: Argument = ("quiet", Form::Flag, QUIET_HELP);

const INBOXES: Argument = ("INBOX", Form::Words, INBOX_HELP);

const SPECS: Argument = ("SPEC", Form::Words, SPEC_HELP);

const CONNECT: Argument = ("connect", Form::Needed("ADDRESS"), CONNECT_HELP);

const TARGET: Argument = ("TARGET", Form::Word, TARGET_HELP);

const FILE: Argument = ("FILE", Form::Word, FILE_HELP);

const SEED: Argument = ("SEED", Form::Word, SEED_HELP);

const FILES: Argument = ("FILES", Form::Word, FILES_HELP);

// All that stands behind each command, in the order of the help.
const ONCE: &[Argument] = &[NAME, PROTO, EPOCH, MARK, STEPS];

const TWOD: &[Argument] = &[NAME, PROTO, EPOCH, MARK, SERVICE, ASK, CHANGES];

const EXTRACT: &[Argument] = &[NAME, PROTO, EPOCH, MARK, VIEW, ASK, FORMAT, CHANGES];

const PULL: &[Argument] = &[CONNECT, TARGET];

const CHECK: &[Argument] = &[FILE];

const LOAD: &[Argument] = &[SEED, FILES];

const SERVE: &[Argument] = &[
    NAME,
    PROTO,
    EPOCH,
    MARK,
    LISTEN,
    WORKERS,
    CONNECTIONS,
    KEEP,
    TICKS,
    QUIET,
    INBOXES,
];

const MANY: &[Argument] = &[LISTEN, WORKERS, CONNECTIONS, KEEP, TICKS, QUIET, SPECS];

/// All that stands behind a command.
#[tactic(auto, unfolding(crate::proofs::CommandLemmas::fmrcd_on_literals))]
pub(crate) fn arguments_of(command: Command) -> &'static [Argument]
    ensures { map spec.rule_in result.now ≡ spec.with_arguments command [] }
{
    match command {
        Command::Once => ONCE,
        Command::Twod => TWOD,
        Command::Extract => EXTRACT,
        Command::Pull => PULL,
        Command::Check => CHECK,
        Command::Load => LOAD,
        Command::Serve => SERVE,
        Command::Many => MANY,
    }
}
