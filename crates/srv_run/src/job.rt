//! Jobs: the work that the words ask for.
ghost use Rattle.std.specs.Prelude.{◌≡◌, IfOk, Option, Some};
ghost use Rattle.srv_words.specs.declared.job.Job.{Job as Work};
ghost use Rattle.srv_words.specs.Jobs.{IsJob, command_of, job_of};
ghost use Rattle.srv_serve.specs.Shows.{shows};
ghost use Rattle.srv_serve.specs.Stage.{dial_shown, stage_of};
ghost use Rattle.srv_run.specs.Run as spec;

use crate::alone::do_alone;
use dev_traits::{Machine, World};
use fm_base::{Bytes, Fail, List};
use srv_alone::End;
use srv_closing::say;
use srv_serve::{many, serve};
use srv_words::{Command, Job, read_job};
use std::alloc::Global;
use std::marker::Sync;
use std::sync::Wait;
use std::thread::Threads;

// The job of the words, or the end of a run without one.
pub(crate) fn job_or_end(alloc: Global, words: &List<Bytes>) -> Result<Job, End>
    ensures job { spec.IsJobOrEnd (job_of words.now) result }
    ensures sound { IfOk result IsJob }
{
    match read_job(alloc, words) {
        Ok(job) => Ok(job),
        Err(Fail::NoMemory) => Err(End::NoMemory),
        Err(Fail::Fault(_)) => Err(End::BadWords),
    }
}

// Whether a job is of a command.
fn is_of(job: &Job, command: Command) -> bool
    ensures { result ≡ spec.is_same command (command_of job.now) }
{
    matches!(
        (command, job.command()),
        (Command::Once, Command::Once)
            | (Command::Check, Command::Check)
            | (Command::Load, Command::Load)
            | (Command::Serve, Command::Serve)
            | (Command::Twod, Command::Twod)
            | (Command::Extract, Command::Extract)
            | (Command::Pull, Command::Pull)
            | (Command::Many, Command::Many)
    )
}

// The job of the words where it is of this command, or the end of a run without one.
#[tactic(auto, using(crate::proofs::JobLemmas::jobs))]
pub(crate) fn command_or_end(
    alloc: Global,
    words: &List<Bytes>,
    command: Command,
) -> Result<Job, End>
    ensures job { spec.IsJobOrEnd (spec.only command (job_of words.now)) result }
    ensures sound { IfOk result IsJob }
    ensures alone { spec.IsAloneCommand command → IfOk result spec.IsAlone }
{
    let job = job_or_end(alloc, words)?;
    if is_of(&job, command) {
        Ok(job)
    } else {
        drop(job);
        Err(End::BadWords)
    }
}

// Does the job that was found, which waits for nobody, or says why there is none.
pub(crate) fn do_found_alone<M: Machine>(
    alloc: Global,
    found: Result<Job, End>,
    world: &mut World<M>,
) -> End
    requires blocks { M.L.blocks }
    requires dialled { M.N.L.blocks }
    requires job { IfOk found IsJob }
    requires alone { IfOk found spec.IsAlone }
    ensures { let stage = stage_of M.shown M.F.shown M.L.shown M.S.shown (dial_shown M.N.shown M.N.L.shown) in
        (job : Option Work) → spec.IsJobOrEnd job found
        → spec.RunsTo (shows M.D.shown M.D.L.shown M.I.shown M.C.shown) job result
        (stage world.old) (stage world.new) }
{
    match found {
        Ok(job) => do_alone(alloc, job, world),
        Err(end) => say(world, end),
    }
}

// Does a job.
fn do_job<R: Threads + Wait + Sync, M: Machine>(
    rt: &R,
    alloc: Global,
    job: Job,
    world: &mut World<M>,
) -> End
    requires blocks { M.L.blocks }
    requires dialled { M.N.L.blocks }
    requires job { IsJob job }
    ensures { let stage = stage_of M.shown M.F.shown M.L.shown M.S.shown (dial_shown M.N.shown M.N.L.shown) in
        spec.DoesJob (shows M.D.shown M.D.L.shown M.I.shown M.C.shown) (Some job) result
        (stage world.old) (stage world.new) }
{
    match job {
        Job::Serve(serving) => {
            let end = serve(rt, alloc, &serving, world);
            drop(serving);
            end
        }
        Job::Many(serving) => {
            let end = many(rt, alloc, &serving, world);
            drop(serving);
            end
        }
        job => do_alone(alloc, job, world),
    }
}

// Does the job that was found, or says why there is none.
pub(crate) fn do_found<R: Threads + Wait + Sync, M: Machine>(
    rt: &R,
    alloc: Global,
    found: Result<Job, End>,
    world: &mut World<M>,
) -> End
    requires blocks { M.L.blocks }
    requires dialled { M.N.L.blocks }
    requires job { IfOk found IsJob }
    ensures { let stage = stage_of M.shown M.F.shown M.L.shown M.S.shown (dial_shown M.N.shown M.N.L.shown) in
        (job : Option Work) → spec.IsJobOrEnd job found
        → spec.RunsTo (shows M.D.shown M.D.L.shown M.I.shown M.C.shown) job result
        (stage world.old) (stage world.new) }
{
    match found {
        Ok(job) => do_job(rt, alloc, job, world),
        Err(end) => say(world, end),
    }
}
