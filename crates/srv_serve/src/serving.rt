//! The command that serves a collection.
ghost use Rattle.std.specs.Prelude.{◌≡◌, [], IfErr, IfOk, OnOk};
ghost use Rattle.fm_model.specs.Site.{IsPrototype};
ghost use Rattle.srv_words.specs.Serve.{IsServing};
ghost use Rattle.srv_open.specs.Devices as asking;
ghost use Rattle.srv_open.specs.Devices.{wanted_of};
ghost use Rattle.srv_serve.specs.Serve as spec;
ghost use Rattle.srv_open.specs.Shows.{shows};
ghost use Rattle.srv_closing.specs.Stage.{dial_shown, stage_of};

use crate::prototypes::read_shared;
use crate::telling::tell_serving;
use dev_traits::{Devices, Machine, Opened, World};
use fm_base::Arc;
use fm_model::Proto;
use srv_alone::{End, report};
use srv_closing::{close, say};
use srv_open::{Asked, open_all};
use srv_words::Serving;
use srv_workers::{Outcome, run_workers};
use std::alloc::Global;
use std::marker::Sync;
use std::sync::Wait;
use std::thread::Threads;

// For how many seconds a run is kept; nothing asks where there is no clock.
pub(crate) fn kept(keep: Option<u32>) -> u32
    ensures { result ≡ asking.kept_for keep }
{
    match keep {
        Some(seconds) => seconds,
        None => 0,
    }
}

// What the options ask for.
fn asked_by(serving: &Serving) -> Asked<'_>
    ensures { wanted_of result ≡ asking.asked_by serving.now }
{
    Asked {
        listen: serving.listen.as_slice(),
        connections: serving.connections,
        workers: serving.workers,
        inboxes: serving.inboxes.as_slice(),
        clocks: u32::from(serving.keep.is_some()),
        ticks: serving.ticks,
    }
}

// Opens all devices that the options ask for, and tells so.
fn open_served<R: Threads + Wait + Sync, M: Machine>(
    rt: &R,
    alloc: Global,
    serving: &Serving,
    opener: &mut M,
    devices: &mut Opened<M>,
) -> Result<(), End>
    requires serving { IsServing serving.now }
    requires none { devices.old ≡ record { doors = []; inboxes = []; clocks = [] } }
    ensures opens { OnOk result (spec.HasOpened (shows M.D.shown M.D.L.shown M.I.shown M.C.shown)
        (spec.serving_lines serving.now) (asking.asked_by serving.now) (M.shown opener.old) (M.shown opener.new)
        devices.new) }
    ensures stopped { IfErr result (spec.HasStopped (shows M.D.shown M.D.L.shown M.I.shown M.C.shown)
        (spec.serving_lines serving.now) (asking.asked_by serving.now) (M.shown opener.old) (M.shown opener.new)
        devices.new) }
{
    let asked = asked_by(serving);
    open_all(rt, alloc, &asked, opener, devices)?;
    tell_serving(alloc, opener, serving.site.name.as_slice(), &asked)?;
    Ok(())
}

// Opens all devices, and has workers run over them, each in a thread of its own.
fn run_in_threads<R: Threads + Wait + Sync, M: Machine>(
    rt: &R,
    alloc: Global,
    serving: &Serving,
    proto: &Arc<Proto>,
    opener: &mut M,
    gate: &M::G,
    devices: &mut Opened<M>,
) -> Result<Outcome, End>
    requires serving { IsServing serving.now }
    requires proto { IsPrototype proto.now }
    requires none { devices.old ≡ record { doors = []; inboxes = []; clocks = [] } }
    ensures run { IfOk result (spec.HasRun (shows M.D.shown M.D.L.shown M.I.shown M.C.shown) serving.now proto.now
        (M.shown opener.old) (M.shown opener.new) devices.new) }
    ensures stopped { IfErr result (spec.HasStopped (shows M.D.shown M.D.L.shown M.I.shown M.C.shown)
        (spec.serving_lines serving.now) (asking.asked_by serving.now) (M.shown opener.old) (M.shown opener.new)
        devices.new) }
{
    open_served(rt, alloc, serving, opener, devices)?;
    let keep = kept(serving.keep);
    let outcome = run_workers::<R, M>(rt, alloc, proto, keep, gate, devices)?;
    Ok(outcome)
}

/// Runs `serve`: reads the prototype, opens all devices and has a worker run over each, all at once, and writes what
/// they did, or reports how the run ended. It waits for all workers.
pub fn serve<R: Threads + Wait + Sync, M: Machine>(
    rt: &R,
    alloc: Global,
    serving: &Serving,
    world: &mut World<M>,
) -> End
    requires { IsServing serving.now }
    ensures { let stage = stage_of M.shown M.F.shown M.L.shown M.S.shown (dial_shown M.N.shown M.N.L.shown) in
        spec.RunsServe (shows M.D.shown M.D.L.shown M.I.shown M.C.shown) serving.now result
        (stage world.old) (stage world.new) }
{
    let path = serving.proto.as_slice();
    let proto = match read_shared(alloc, &mut world.files, &serving.site, path) {
        Ok(proto) => proto,
        Err(end) => {
            report(&mut world.sink, end, path);
            return end;
        }
    };
    world.devices = Devices::none(alloc);
    let opener = &mut world.opener;
    let devices = &mut world.devices;
    match run_in_threads(rt, alloc, serving, &proto, opener, &world.gate, devices) {
        Ok(outcome) => {
            let end = close(&mut world.sink, &outcome);
            drop(outcome);
            end
        }
        Err(end) => say(world, end),
    }
}
