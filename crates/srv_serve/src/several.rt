//! The command that serves several collections at one address.
ghost use Rattle.std.specs.Prelude.{◌≡◌, ◌∷◌, ◌++◌, [], All, IfErr, IfOk, OnOk, length, map};
ghost use Rattle.fm_model.specs.Site.{IsPrototype};
ghost use Rattle.srv_words.specs.Many.{IsServingMany};
ghost use Rattle.srv_open.specs.Devices as asking;
ghost use Rattle.srv_open.specs.Devices.{wanted_of};
ghost use Rattle.srv_serve.specs.Many as spec;
ghost use Rattle.srv_serve.specs.Serve.{HasOpened, HasStopped};
ghost use Rattle.srv_open.specs.Shows.{shows};
ghost use Rattle.srv_closing.specs.Stage.{dial_shown, stage_of};

use crate::prototypes::read_each;
use crate::serving::kept;
use crate::telling::tell_each;
use dev_traits::{Devices, Machine, Opened, World};
use fm_base::{Arc, Bytes, List, NoMemory};
use fm_model::Proto;
use srv_alone::{End, report};
use srv_closing::{close_many, say};
use srv_open::{Asked, open_all};
use srv_words::{ServingMany, Spec};
use srv_workers::{Outcomes, run_several};
use std::alloc::Global;
use std::marker::Sync;
use std::sync::Wait;
use std::thread::Threads;

// Adds a copy of a folder.
fn put_folder(alloc: Global, folder: &[u8], folders: &mut List<Bytes>) -> Result<(), NoMemory>
    ensures { OnOk result (folders.new ≡ folders.old ++ folder.now ∷ []) }
{
    let copy = Bytes::copy_of(alloc, folder)?;
    folders.push(copy)
}

// The folders of the collections.
fn folders_of(alloc: Global, specs: &[Spec]) -> Result<List<Bytes>, NoMemory>
    ensures { IfOk result (λ folders. folders ≡ map (λ spec. spec.inbox) specs.now) }
{
    let mut folders = List::new(alloc);
    for spec in specs {
        if let Err(NoMemory) = put_folder(alloc, spec.inbox.as_slice(), &mut folders) {
            drop(folders);
            return Err(NoMemory);
        }
    }
    Ok(folders)
}

// How many clocks are asked for: one for each collection where runs are kept for a time.
fn clocks_for(serving: &ServingMany) -> u32
    requires { IsServingMany serving.now }
    ensures { result ≡ asking.clocks_for (length serving.now.specs) serving.now.keep }
{
    match serving.keep {
        Some(_) => serving.specs.len() as u32,
        None => 0,
    }
}

// What the options ask for, with these folders.
fn asked_with<'a>(serving: &'a ServingMany, folders: &'a [Bytes]) -> Asked<'a>
    requires serving { IsServingMany serving.now }
    requires folders { folders.now ≡ map (λ spec. spec.inbox) serving.now.specs }
    ensures { wanted_of result ≡ spec.asked_by serving.now }
{
    Asked {
        listen: serving.listen.as_slice(),
        connections: serving.connections,
        workers: serving.workers,
        inboxes: folders,
        clocks: clocks_for(serving),
        ticks: serving.ticks,
    }
}

// Opens all devices of the collections, whose folders these are, and tells so.
fn open_with<R: Threads + Wait + Sync, M: Machine>(
    rt: &R,
    alloc: Global,
    serving: &ServingMany,
    folders: &[Bytes],
    opener: &mut M,
    devices: &mut Opened<M>,
) -> Result<(), End>
    requires serving { IsServingMany serving.now }
    requires folders { folders.now ≡ map (λ spec. spec.inbox) serving.now.specs }
    requires none { devices.old ≡ record { doors = []; inboxes = []; clocks = [] } }
    ensures opens { OnOk result (HasOpened (shows M.D.shown M.D.L.shown M.I.shown M.C.shown)
        (spec.serving_lines serving.now) (spec.asked_by serving.now) (M.shown opener.old) (M.shown opener.new)
        devices.new) }
    ensures stopped { IfErr result (HasStopped (shows M.D.shown M.D.L.shown M.I.shown M.C.shown)
        (spec.serving_lines serving.now) (spec.asked_by serving.now) (M.shown opener.old) (M.shown opener.new)
        devices.new) }
{
    let asked = asked_with(serving, folders);
    open_all(rt, alloc, &asked, opener, devices)?;
    tell_each(opener, serving);
    Ok(())
}

// Opens all devices of the collections, and tells so.
fn open_each<R: Threads + Wait + Sync, M: Machine>(
    rt: &R,
    alloc: Global,
    serving: &ServingMany,
    opener: &mut M,
    devices: &mut Opened<M>,
) -> Result<(), End>
    requires serving { IsServingMany serving.now }
    requires none { devices.old ≡ record { doors = []; inboxes = []; clocks = [] } }
    ensures opens { OnOk result (HasOpened (shows M.D.shown M.D.L.shown M.I.shown M.C.shown)
        (spec.serving_lines serving.now) (spec.asked_by serving.now) (M.shown opener.old) (M.shown opener.new)
        devices.new) }
    ensures stopped { IfErr result (HasStopped (shows M.D.shown M.D.L.shown M.I.shown M.C.shown)
        (spec.serving_lines serving.now) (spec.asked_by serving.now) (M.shown opener.old) (M.shown opener.new)
        devices.new) }
{
    let Ok(folders) = folders_of(alloc, serving.specs.as_slice()) else {
        return Err(End::NoMemory);
    };
    let opened = open_with(rt, alloc, serving, folders.as_slice(), opener, devices);
    drop(folders);
    opened
}

// Opens all devices, and has workers run over them, each in a thread of its own.
fn run_in_threads<R: Threads + Wait + Sync, M: Machine>(
    rt: &R,
    alloc: Global,
    serving: &ServingMany,
    protos: &[Arc<Proto>],
    opener: &mut M,
    gate: &M::G,
    devices: &mut Opened<M>,
) -> Result<Outcomes, End>
    requires serving { IsServingMany serving.now }
    requires count { length protos.now ≡ length serving.now.specs }
    requires protos { All IsPrototype protos.now }
    requires none { devices.old ≡ record { doors = []; inboxes = []; clocks = [] } }
    ensures run { IfOk result (spec.HasRun (shows M.D.shown M.D.L.shown M.I.shown M.C.shown) serving.now protos.now
        (M.shown opener.old) (M.shown opener.new) devices.new) }
    ensures stopped { IfErr result (HasStopped (shows M.D.shown M.D.L.shown M.I.shown M.C.shown)
        (spec.serving_lines serving.now) (spec.asked_by serving.now) (M.shown opener.old) (M.shown opener.new)
        devices.new) }
{
    open_each(rt, alloc, serving, opener, devices)?;
    let keep = kept(serving.keep);
    let outcomes = run_several::<R, M>(rt, alloc, protos, keep, gate, devices)?;
    Ok(outcomes)
}

// Opens devices for the collections whose prototypes these are, has workers run over them, and reports on the run.
fn serve_with<R: Threads + Wait + Sync, M: Machine>(
    rt: &R,
    alloc: Global,
    serving: &ServingMany,
    protos: &[Arc<Proto>],
    world: &mut World<M>,
) -> End
    requires serving { IsServingMany serving.now }
    requires count { length protos.now ≡ length serving.now.specs }
    requires protos { All IsPrototype protos.now }
    ensures serves { let stage = stage_of M.shown M.F.shown M.L.shown M.S.shown (dial_shown M.N.shown M.N.L.shown) in
        spec.ServesDevices (shows M.D.shown M.D.L.shown M.I.shown M.C.shown) serving.now protos.now
        (stage world.old) (stage world.new) result }
    ensures unread { M.F.shown world.new.files ≡ M.F.shown world.old.files }
    ensures unused { M.L.shown world.new.link ≡ M.L.shown world.old.link }
    ensures undialled { let dial = dial_shown M.N.shown M.N.L.shown in dial world.new.dial ≡ dial world.old.dial }
{
    world.devices = Devices::none(alloc);
    let opener = &mut world.opener;
    let devices = &mut world.devices;
    match run_in_threads(rt, alloc, serving, protos, opener, &world.gate, devices) {
        Ok(outcomes) => {
            let end = close_many(&mut world.sink, serving.specs.as_slice(), &outcomes);
            drop(outcomes);
            end
        }
        Err(end) => say(world, end),
    }
}

/// Runs `many`: reads the prototype of each collection, opens all devices and has a worker run over each, all at once,
/// and writes what they did, a line for each collection, or reports how the run ended. It waits for all workers.
pub fn many<R: Threads + Wait + Sync, M: Machine>(
    rt: &R,
    alloc: Global,
    serving: &ServingMany,
    world: &mut World<M>,
) -> End
    requires { IsServingMany serving.now }
    ensures { let stage = stage_of M.shown M.F.shown M.L.shown M.S.shown (dial_shown M.N.shown M.N.L.shown) in
        spec.RunsMany (shows M.D.shown M.D.L.shown M.I.shown M.C.shown) serving.now result
        (stage world.old) (stage world.new) }
{
    let specs = serving.specs.as_slice();
    let mut protos = List::new(alloc);
    match read_each(alloc, &mut world.files, specs, &mut protos) {
        Ok(()) => {}
        Err(end) => {
            let number = protos.len();
            let path = specs[number].proto.as_slice();
            report(&mut world.sink, end, path);
            drop(protos);
            return end;
        }
    }
    let end = serve_with(rt, alloc, serving, protos.as_slice(), world);
    drop(protos);
    end
}
