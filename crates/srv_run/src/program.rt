//! The top call of the program, and a call for each of its commands.
ghost use Rattle.std.specs.Process.{exit_status};
ghost use Rattle.srv_words.specs.declared.job.Command.TheVariants as commands;
ghost use Rattle.srv_words.specs.Jobs.{job_of};
ghost use Rattle.srv_run.specs.Run as spec;
ghost use Rattle.srv_serve.specs.Shows.{shows};
ghost use Rattle.srv_serve.specs.Stage.{dial_shown, stage_of};

use crate::job::{command_or_end, do_found, do_found_alone, job_or_end};
use dev_traits::{Machine, World};
use fm_base::{Bytes, List};
use srv_alone::End;
use srv_words::{Command, reason_of};
use std::alloc::Global;
use std::marker::Sync;
use std::process::ExitCode;
use std::sync::Wait;
use std::thread::Threads;

// Runs a command that waits for nobody but the devices.
fn run_alone<M: Machine>(
    alloc: Global,
    words: &List<Bytes>,
    command: Command,
    world: &mut World<M>,
) -> u8
    requires blocks { M.L.blocks }
    requires dialled { M.N.L.blocks }
    requires alone { spec.IsAloneCommand command }
    ensures { let stage = stage_of M.shown M.F.shown M.L.shown M.S.shown (dial_shown M.N.shown M.N.L.shown) in
        spec.Ends (shows M.D.shown M.D.L.shown M.I.shown M.C.shown)
        (spec.only command (job_of words.now)) result (stage world.old) (stage world.new) }
{
    let found = command_or_end(alloc, words, command);
    do_found_alone(alloc, found, world).status()
}

/// Runs `once --name NAME --proto PROTO [--epoch INSTANT] [--mark MARK] STEP..`: reads the prototype PROTO, and does
/// the steps in their order on an empty collection over it and one connection over the link. Returns the status of
/// the program.
///
/// | Step | What it does |
/// |---|---|
/// | `put:PATH` | reads the file PATH, which comes to the collection under what follows the last `/` of PATH |
/// | `expire:INSTANT` | takes out the files whose run is below the instant |
/// | `retract:NAME` | takes out the file NAME |
/// | `ask:K` | replies to K requests of the link |
///
/// | Status | Line | Comes |
/// |---|---|---|
/// | 0 | none | every step was done |
/// | 2 | `bad words` | exactly where the words aren't the command |
/// | 3 | `refused PATH code C` | exactly where a file is refused: C is its first fault, 61 where there is no room |
/// | 4 | `no memory` | at any time |
/// | 5 | `file fault PATH` | only where a call of the files failed |
/// | 9 | `link fault` | only where a call of the link failed |
/// | 10 | `no file PATH`, `too long PATH LEN` | exactly where the path has no file, or one of over 536,870,912 bytes |
/// | 11 | `input ended` | exactly where the link ended before an `ask` had its replies |
///
/// The first step that isn't done ends the run. A line that can't be written changes no status.
pub fn run_once<M: Machine>(alloc: Global, words: &List<Bytes>, world: &mut World<M>) -> u8
    requires blocks { M.L.blocks }
    requires dialled { M.N.L.blocks }
    ensures { let stage = stage_of M.shown M.F.shown M.L.shown M.S.shown (dial_shown M.N.shown M.N.L.shown) in
        spec.Ends (shows M.D.shown M.D.L.shown M.I.shown M.C.shown)
        (spec.only commands.Once (job_of words.now)) result (stage world.old) (stage world.new) }
{
    run_alone(alloc, words, Command::Once, world)
}

/// Runs `twod --name NAME --proto PROTO [--epoch INSTANT] [--mark MARK] --service dds|dods [--ask CONSTRAINT] STEP..`:
/// reads the prototype PROTO, does the steps in their order on an empty collection over it, and sends what CONSTRAINT
/// picks of the two-dimensional view of what they leave over the link: its structure text, or its structure text, a
/// line `Data:` and its values. Returns the status of the program. The steps are those of [`run_once`] but `ask:K`.
/// Nothing is taken from the link.
///
/// | Status | Line | Comes |
/// |---|---|---|
/// | 0 | none | the view was sent |
/// | 2 | `bad words` | exactly where the words aren't the command |
/// | 3 | `refused PATH code C` | exactly where a file is refused: C is its first fault, 61 where there is no room |
/// | 3 | `refused twod code C` | exactly where the view is: C is its first fault, of 37, 21 to 26 and 34 |
/// | 4 | `no memory` | at any time before the first byte is sent |
/// | 5 | `file fault PATH` | only where a call of the files failed |
/// | 9 | `link fault` | only where a call of the link failed; a front of the view was sent |
/// | 10 | `no file PATH`, `too long PATH LEN` | exactly where the path has no file, or one of over 536,870,912 bytes |
///
/// The first step that isn't done ends the run. A line that can't be written changes no status.
pub fn run_twod<M: Machine>(alloc: Global, words: &List<Bytes>, world: &mut World<M>) -> u8
    requires blocks { M.L.blocks }
    requires dialled { M.N.L.blocks }
    ensures { let stage = stage_of M.shown M.F.shown M.L.shown M.S.shown (dial_shown M.N.shown M.N.L.shown) in
        spec.Ends (shows M.D.shown M.D.L.shown M.I.shown M.C.shown)
        (spec.only commands.Twod (job_of words.now)) result (stage world.old) (stage world.new) }
{
    run_alone(alloc, words, Command::Twod, world)
}

/// Runs `extract --name NAME --proto PROTO [--epoch INSTANT] [--mark MARK] --view VIEW [--ask CONSTRAINT] --format 1|2
/// STEP..`: reads the prototype PROTO, does the steps in their order on an empty collection over it, and sends what
/// CONSTRAINT picks of a view of what they leave over the link, as a file in the netCDF classic format. VIEW is the
/// path of the view below that of the collection, without a service. Returns the status of the program. The steps are
/// those of [`run_once`] but `ask:K`. Nothing is taken from the link.
///
/// | Status | Line | Comes |
/// |---|---|---|
/// | 0 | none | the file was sent |
/// | 2 | `bad words` | exactly where the words aren't the command |
/// | 3 | `refused PATH code C` | exactly where a file is refused: C is its first fault, 61 where there is no room |
/// | 3 | `refused extract code C` | exactly where the view is: C is its first fault: 21 to 26, 31, 32, 37, 71 to 74 |
/// | 4 | `no memory` | at any time before the first byte is sent |
/// | 5 | `file fault PATH` | only where a call of the files failed |
/// | 9 | `link fault` | only where a call of the link failed; a front of the file was sent |
/// | 10 | `no file PATH`, `too long PATH LEN` | exactly where the path has no file, or one of over 536,870,912 bytes |
///
/// The first step that isn't done ends the run. A line that can't be written changes no status.
pub fn run_extract<M: Machine>(alloc: Global, words: &List<Bytes>, world: &mut World<M>) -> u8
    requires blocks { M.L.blocks }
    requires dialled { M.N.L.blocks }
    ensures { let stage = stage_of M.shown M.F.shown M.L.shown M.S.shown (dial_shown M.N.shown M.N.L.shown) in
        spec.Ends (shows M.D.shown M.D.L.shown M.I.shown M.C.shown)
        (spec.only commands.Extract (job_of words.now)) result (stage world.old) (stage world.new) }
{
    run_alone(alloc, words, Command::Extract, world)
}

/// Runs `pull --connect ADDRESS TARGET`: dials ADDRESS, asks for TARGET, reads one reply and gives the link back. Says
/// what the reply's data are. Returns the status of the program. It dials once, or not at all where memory runs out.
///
/// | Status | Line | Comes |
/// |---|---|---|
/// | 0 | `label L parts P values V sum S` | the reply has data, and the line was written |
/// | 2 | `bad words` | exactly where the words aren't the command |
/// | 4 | `no memory` | at any time |
/// | 7 | the first bytes of the line of 0 | only where a call of the sink failed |
/// | 9 | `link fault` | only where a call of the dialer failed, or one of the link that it gave |
/// | 12 | `bad reply code C` | exactly where the reply has a fault; C is the number of the first |
///
/// L is the name of the dataset, P the number of its variables, V the number of all their values, and S the sum of the
/// bits of all numbers modulo 2^32. A line of another status that can't be written changes no status. No file is read,
/// nor is the link of the run used.
pub fn run_pull<M: Machine>(alloc: Global, words: &List<Bytes>, world: &mut World<M>) -> u8
    requires blocks { M.L.blocks }
    requires dialled { M.N.L.blocks }
    ensures { let stage = stage_of M.shown M.F.shown M.L.shown M.S.shown (dial_shown M.N.shown M.N.L.shown) in
        spec.Ends (shows M.D.shown M.D.L.shown M.I.shown M.C.shown)
        (spec.only commands.Pull (job_of words.now)) result (stage world.old) (stage world.new) }
{
    run_alone(alloc, words, Command::Pull, world)
}

/// Runs `check FILE`: reads the header of a file in the netCDF classic format and sees that all its data lies in the
/// file. Returns the status of the program.
///
/// | Status | Line | Comes |
/// |---|---|---|
/// | 0 | `ok CDF-VERSION dims D vars V records R` | the file has no fault, and the line was written |
/// | 2 | `bad words` | exactly where the words aren't the command |
/// | 3 | `refused FILE code C` | exactly where the header or the layout has a fault; C is the number of the first |
/// | 4 | `no memory` | at any time |
/// | 5 | `file fault FILE` | only where a call of the files failed |
/// | 7 | the first bytes of the line of 0 | only where a call of the sink failed |
/// | 10 | `no file FILE`, `too long FILE LEN` | exactly where the path has no file, or one of over 536,870,912 bytes |
///
/// A line of another status that can't be written changes no status. The link isn't used.
pub fn run_check<M: Machine>(alloc: Global, words: &List<Bytes>, world: &mut World<M>) -> u8
    requires blocks { M.L.blocks }
    requires dialled { M.N.L.blocks }
    ensures { let stage = stage_of M.shown M.F.shown M.L.shown M.S.shown (dial_shown M.N.shown M.N.L.shown) in
        spec.Ends (shows M.D.shown M.D.L.shown M.I.shown M.C.shown)
        (spec.only commands.Check (job_of words.now)) result (stage world.old) (stage world.new) }
{
    run_alone(alloc, words, Command::Check, world)
}

/// Runs `load SEED FILES`: makes the first FILES files of a seed, puts them one after the other in a collection whose
/// prototype is the first of them, and reads four of its views whole. Returns the status of the program.
///
/// | Status | Line | Comes |
/// |---|---|---|
/// | 0 | `files F rows R best B run U offset O forecast C sum S` | the views were read, and the line was written |
/// | 2 | `bad words` | exactly where the words aren't the command |
/// | 4 | `no memory` | at any time |
/// | 7 | the first bytes of the line of 0 | only where a call of the sink failed |
///
/// F and R are the files and the times that the collection holds; B, U, O and C the rows of the best time series, of
/// the dataset of the first run, of the offset 0, and of the forecast at the last run; S is the sum of the bytes of
/// their data modulo 2^32. A line of another status that can't be written changes no status. No file is read, nor is
/// the link used.
pub fn run_load<M: Machine>(alloc: Global, words: &List<Bytes>, world: &mut World<M>) -> u8
    requires blocks { M.L.blocks }
    requires dialled { M.N.L.blocks }
    ensures { let stage = stage_of M.shown M.F.shown M.L.shown M.S.shown (dial_shown M.N.shown M.N.L.shown) in
        spec.Ends (shows M.D.shown M.D.L.shown M.I.shown M.C.shown)
        (spec.only commands.Load (job_of words.now)) result (stage world.old) (stage world.new) }
{
    run_alone(alloc, words, Command::Load, world)
}

/// Does what the words ask for, without the program's own name, reports how it ended, and returns the status of the
/// program: as the call of the command that the words name, whose other calls have the same answers for bad words.
pub fn run<R: Threads + Wait + Sync, M: Machine>(
    rt: &R,
    alloc: Global,
    words: &List<Bytes>,
    world: &mut World<M>,
) -> u8
    requires blocks { M.L.blocks }
    requires dialled { M.N.L.blocks }
    ensures { let stage = stage_of M.shown M.F.shown M.L.shown M.S.shown (dial_shown M.N.shown M.N.L.shown) in
        spec.Ends (shows M.D.shown M.D.L.shown M.I.shown M.C.shown)
        (job_of words.now) result (stage world.old) (stage world.new) }
{
    let found = job_or_end(alloc, words);
    do_found(rt, alloc, found, world).status()
}

// What a person is told after a run that ended so: why the words are bad, where they are. No clause speaks of the text.
fn told(alloc: Global, words: &List<Bytes>, end: End) -> Option<String> {
    match end {
        End::BadWords => reason_of(alloc, words).ok(),
        _ => None,
    }
}

/// As [`run`], for a process that ends with the status; and a second line for a person where the words are bad: which
/// word is faulty, and why. No clause speaks of that text.
pub fn run_process<R: Threads + Wait + Sync, M: Machine>(
    rt: &R,
    alloc: Global,
    words: &List<Bytes>,
    world: &mut World<M>,
) -> (ExitCode, Option<String>)
    requires blocks { M.L.blocks }
    requires dialled { M.N.L.blocks }
    ensures { let stage = stage_of M.shown M.F.shown M.L.shown M.S.shown (dial_shown M.N.shown M.N.L.shown) in
        spec.Ends (shows M.D.shown M.D.L.shown M.I.shown M.C.shown)
        (job_of words.now) (exit_status result.0) (stage world.old) (stage world.new) }
{
    let found = job_or_end(alloc, words);
    let end = do_found(rt, alloc, found, world);
    (ExitCode::from(end.status()), told(alloc, words, end))
}
