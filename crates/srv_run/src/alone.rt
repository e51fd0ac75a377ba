//! Jobs that wait for nobody but the devices.
ghost use Rattle.std.specs.Prelude.{◌<◌, ◌≤◌, Some};
ghost use Rattle.fm_model.specs.Site.{IsSite};
ghost use Rattle.dev_traits.specs.World.{world_shown};
ghost use Rattle.srv_words.specs.Jobs.{IsJob};
ghost use Rattle.srv_words.specs.Stepping.{IsChanging};
ghost use Rattle.srv_alone.specs.Once.{RunsOnce};
ghost use Rattle.srv_views.specs.Extract.{RunsExtract};
ghost use Rattle.srv_views.specs.Views.{RunsTwod};
ghost use Rattle.srv_serve.specs.Shows.{shows};
ghost use Rattle.srv_serve.specs.Stage.{LeavesDevices, dial_shown, stage_of};
ghost use Rattle.srv_run.specs.Run as spec;

use dev_traits::{Machine, World};
use fm_twod::TwodAsk;
use srv_alone::{End, check, load, once};
use srv_pull::pull;
use srv_views::{ExtractAsk, extract, twod};
use srv_words::{Job, Stepping};
use std::alloc::Global;

// Runs `once`.
fn do_steps<M: Machine>(alloc: Global, stepping: Stepping, world: &mut World<M>) -> End
    requires blocks { M.L.blocks }
    requires site { IsSite stepping.site }
    ensures runs { let shown = world_shown M.F.shown M.L.shown M.S.shown in
        RunsOnce stepping.site stepping.proto stepping.steps result (shown world.old) (shown world.new) }
    ensures leaves { let stage = stage_of M.shown M.F.shown M.L.shown M.S.shown (dial_shown M.N.shown M.N.L.shown) in
        spec.LeavesRest (stage world.old) (stage world.new) }
{
    let World {
        files,
        link,
        sink,
        ..
    } = world;
    let Stepping { site, proto, steps } = stepping;
    once(
        alloc,
        site,
        proto.as_slice(),
        steps.as_slice(),
        files,
        link,
        sink,
    )
}

// Runs `twod`.
fn send_twod<M: Machine>(
    alloc: Global,
    stepping: Stepping,
    ask: TwodAsk,
    world: &mut World<M>,
) -> End
    requires blocks { M.L.blocks }
    requires changing { IsChanging stepping }
    ensures runs { let shown = world_shown M.F.shown M.L.shown M.S.shown in
        RunsTwod stepping ask result (shown world.old) (shown world.new) }
    ensures leaves { let stage = stage_of M.shown M.F.shown M.L.shown M.S.shown (dial_shown M.N.shown M.N.L.shown) in
        spec.LeavesRest (stage world.old) (stage world.new) }
{
    let World {
        files,
        link,
        sink,
        ..
    } = world;
    twod(alloc, stepping, &ask, files, link, sink)
}

// Runs `extract`.
fn send_extract<M: Machine>(
    alloc: Global,
    stepping: Stepping,
    ask: ExtractAsk,
    world: &mut World<M>,
) -> End
    requires blocks { M.L.blocks }
    requires changing { IsChanging stepping }
    ensures runs { let shown = world_shown M.F.shown M.L.shown M.S.shown in
        RunsExtract stepping ask result (shown world.old) (shown world.new) }
    ensures leaves { let stage = stage_of M.shown M.F.shown M.L.shown M.S.shown (dial_shown M.N.shown M.N.L.shown) in
        spec.LeavesRest (stage world.old) (stage world.new) }
{
    let World {
        files,
        link,
        sink,
        ..
    } = world;
    extract(alloc, stepping, &ask, files, link, sink)
}

// Runs `pull`.
fn pull_from<M: Machine>(alloc: Global, address: &[u8], target: &[u8], world: &mut World<M>) -> End
    requires { M.N.L.blocks }
    ensures pulls { let stage = stage_of M.shown M.F.shown M.L.shown M.S.shown (dial_shown M.N.shown M.N.L.shown) in
        spec.PullsAlone address.now target.now result (stage world.old) (stage world.new) }
    ensures leaves { let stage = stage_of M.shown M.F.shown M.L.shown M.S.shown (dial_shown M.N.shown M.N.L.shown) in
        LeavesDevices (stage world.old) (stage world.new) }
{
    pull(alloc, address, target, &mut world.dial, &mut world.sink)
}

// Runs `check`.
fn check_path<M: Machine>(alloc: Global, path: &[u8], world: &mut World<M>) -> End
    ensures runs { let shown = world_shown M.F.shown M.L.shown M.S.shown in
        spec.RunsCheck path.now result (shown world.old) (shown world.new) }
    ensures leaves { let stage = stage_of M.shown M.F.shown M.L.shown M.S.shown (dial_shown M.N.shown M.N.L.shown) in
        spec.LeavesRest (stage world.old) (stage world.new) }
{
    check(alloc, &mut world.files, &mut world.sink, path)
}

// Runs `load`.
fn load_files<M: Machine>(alloc: Global, seed: u32, files: u32, world: &mut World<M>) -> End
    requires some { 0 < files }
    requires few { files ≤ 400 }
    ensures runs { let shown = world_shown M.F.shown M.L.shown M.S.shown in
        spec.RunsLoad seed files result (shown world.old) (shown world.new) }
    ensures leaves { let stage = stage_of M.shown M.F.shown M.L.shown M.S.shown (dial_shown M.N.shown M.N.L.shown) in
        spec.LeavesRest (stage world.old) (stage world.new) }
{
    load(alloc, &mut world.sink, seed, files)
}

/// Does a job that waits for nobody.
pub(crate) fn do_alone<M: Machine>(alloc: Global, job: Job, world: &mut World<M>) -> End
    requires blocks { M.L.blocks }
    requires dialled { M.N.L.blocks }
    requires job { IsJob job }
    requires alone { spec.IsAlone job }
    ensures { let stage = stage_of M.shown M.F.shown M.L.shown M.S.shown (dial_shown M.N.shown M.N.L.shown) in
        spec.DoesJob (shows M.D.shown M.D.L.shown M.I.shown M.C.shown) (Some job) result
        (stage world.old) (stage world.new) }
{
    match job {
        Job::Once(stepping) => do_steps(alloc, stepping, world),
        Job::Twod {
            stepping,
            with_values,
            constraint,
        } => {
            let ask = TwodAsk {
                with_values,
                constraint,
            };
            send_twod(alloc, stepping, ask, world)
        }
        Job::Extract {
            stepping,
            view,
            constraint,
            version,
        } => {
            let ask = ExtractAsk {
                view,
                constraint,
                version,
            };
            send_extract(alloc, stepping, ask, world)
        }
        Job::Pull { address, target } => {
            pull_from(alloc, address.as_slice(), target.as_slice(), world)
        }
        Job::Check { path } => check_path(alloc, path.as_slice(), world),
        Job::Load { seed, files } => load_files(alloc, seed, files, world),
        _ => unreachable!(),
    }
}
