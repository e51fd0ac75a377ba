//! A call for each command that serves.
ghost use Rattle.srv_words.specs.declared.job.Command.TheVariants as commands;
ghost use Rattle.srv_words.specs.Jobs.{job_of};
ghost use Rattle.srv_run.specs.Run as spec;
ghost use Rattle.srv_serve.specs.Shows.{shows};
ghost use Rattle.srv_serve.specs.Stage.{dial_shown, stage_of};

use crate::job::{command_or_end, do_found};
use dev_traits::{Machine, World};
use fm_base::{Bytes, List};
use srv_words::Command;
use std::alloc::Global;
use std::marker::Sync;
use std::sync::Wait;
use std::thread::Threads;

/// Runs `serve --name NAME --proto PROTO --listen ADDRESS [--workers K] [--connections C] [--keep SECONDS] [--ticks
/// T] [--epoch INSTANT] [--mark MARK] INBOX..`: reads the prototype PROTO, opens K doors at the address, an inbox for
/// each INBOX, and with `--keep` a clock, and has a worker for each of them, all at once: links that come through the
/// doors are served from the collection, files that arrive in the inboxes come to it or are taken back from it, and
/// at each moment of the clock the runs go that are older than SECONDS. Once all workers have ended it says what they
/// did. It waits for all of them. Returns the status of the program.
///
/// | Status | Line | Comes |
/// |---|---|---|
/// | 0 | `published P retracted T expired E held F rows R revision V` | all ended well, and the line was written |
/// | 2 | `bad words` | exactly where the words aren't the command |
/// | 3 | `refused PROTO code C` | exactly where the prototype is refused; C is the number of its first fault |
/// | 4 | `no memory` | at any time |
/// | 5 | `file fault PROTO` | only where a call of the files failed |
/// | 6 | `door fault I` | only where door I, from 0, couldn't be opened, or one of its calls failed |
/// | 7 | the first bytes of the line of 0 | only where a call of the sink failed |
/// | 8 | `inbox fault I` | only where inbox I, from 0, couldn't be opened, or one of its calls failed |
/// | 10 | `no file PROTO`, `too long PROTO LEN` | exactly where PROTO is no file, or has over 536,870,912 bytes |
///
/// P, T and E are the files that came, those that were taken back, and the times that runs went; F and R the files
/// and times that the collection holds at the end, and V the operations that were published, P + T + E of them. The
/// first worker that didn't end well gives the status: doors come before inboxes, and these before the clock. A line
/// of another status that can't be written changes no status. The devices stand in the world as they were left.
pub fn run_serve<R: Threads + Wait + Sync, M: Machine>(
    rt: &R,
    alloc: Global,
    words: &List<Bytes>,
    world: &mut World<M>,
) -> u8
    requires blocks { M.L.blocks }
    requires dialled { M.N.L.blocks }
    ensures { let stage = stage_of M.shown M.F.shown M.L.shown M.S.shown (dial_shown M.N.shown M.N.L.shown) in
        spec.Ends (shows M.D.shown M.D.L.shown M.I.shown M.C.shown)
        (spec.only commands.Serve (job_of words.now)) result (stage world.old) (stage world.new) }
{
    let found = command_or_end(alloc, words, Command::Serve);
    do_found(rt, alloc, found, world).status()
}

/// Runs `many --listen ADDRESS [--workers K] [--connections C] [--keep SECONDS] [--ticks T] NAME=PROTO=INBOX..` for two
/// to four collections with different names, each with the default epoch and mark: reads the prototype PROTO of each,
/// opens K doors at the address, and for each collection its INBOX and, with `--keep`, a clock, and has a worker for
/// each of them, all at once. A request that comes through a door is answered from the collection below whose root its
/// path lies, or from the first one. All else is as for [`run_serve`], for each collection by itself. It waits for all
/// workers. Returns the status of the program.
///
/// | Status | Line | Comes |
/// |---|---|---|
/// | 0 | for each collection NAME, a blank and the line of `serve` | all ended well, and the lines were written |
/// | 2 | `bad words` | exactly where the words aren't the command |
/// | 3 | `refused PROTO code C` | exactly where a prototype is refused; C is the number of its first fault |
/// | 4 | `no memory` | at any time |
/// | 5 | `file fault PROTO` | only where a call of the files failed |
/// | 6 | `door fault I` | only where door I, from 0, couldn't be opened, or one of its calls failed |
/// | 7 | the first bytes of the lines of 0 | only where a call of the sink failed |
/// | 8 | `inbox fault I` | only where inbox I, from 0, couldn't be opened, or one of its calls failed |
/// | 10 | `no file PROTO`, `too long PROTO LEN` | exactly where a PROTO is no file, or has over 536,870,912 bytes |
///
/// PROTO is that of the first collection whose prototype isn't taken, and inbox I that of collection I. The first
/// worker that didn't end well gives the status: doors come before inboxes, and these before clocks. A line of another
/// status that can't be written changes no status. The devices stand in the world as they were left.
pub fn run_many<R: Threads + Wait + Sync, M: Machine>(
    rt: &R,
    alloc: Global,
    words: &List<Bytes>,
    world: &mut World<M>,
) -> u8
    requires blocks { M.L.blocks }
    requires dialled { M.N.L.blocks }
    ensures { let stage = stage_of M.shown M.F.shown M.L.shown M.S.shown (dial_shown M.N.shown M.N.L.shown) in
        spec.Ends (shows M.D.shown M.D.L.shown M.I.shown M.C.shown)
        (spec.only commands.Many (job_of words.now)) result (stage world.old) (stage world.new) }
{
    let found = command_or_end(alloc, words, Command::Many);
    do_found(rt, alloc, found, world).status()
}
