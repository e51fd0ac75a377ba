//! Opens the doors, the inboxes and the clocks of a server.
ghost use Rattle.std.specs.Prelude.{◌≡◌, ◌<◌, ◌^◌, [], length, IfErr, OnOk};
ghost use Rattle.srv_alone.specs.declared.end.End.TheVariants.{DoorFault, InboxFault};
ghost use Rattle.srv_open.specs.Devices as asking;
ghost use Rattle.srv_open.specs.Opening as spec;
ghost use Rattle.srv_open.specs.Shows.{shows};

use dev_traits::{Failed, Machine, Opened};
use fm_base::{Bytes, Fail, List, NoMemory};
use srv_alone::End;
use srv_workers::can_start;
use std::alloc::Global;
use std::marker::Sync;
use std::sync::Wait;
use std::thread::Threads;

/// What a server is asked to open: doors at an address, each for a number of connections, an inbox for each folder, and
/// clocks, each of a number of ticks.
#[derive(Clone, Copy)]
pub struct Asked<'a> {
    pub listen: &'a [u8],
    pub connections: u32,
    pub workers: u32,
    pub inboxes: &'a [Bytes],
    pub clocks: u32,
    pub ticks: u32,
}

// The end of opening where a call failed, or memory ran out.
fn end_of(fail: Fail<Failed>, end: End) -> End
    ensures { result ≡ spec.end_of fail end }
{
    match fail {
        Fail::NoMemory => End::NoMemory,
        Fail::Fault(_failed) => end,
    }
}

// Opens `count` doors at an address for `connections` links each. Room for all is made first, so each opened door
// stands in the list, also where a further one isn't opened.
#[tactic(auto, using(crate::proofs::OpeningLemmas::doors))]
fn open_doors<M: Machine>(
    alloc: Global,
    opener: &mut M,
    doors: &mut List<M::D>,
    address: &[u8],
    connections: u32,
    count: u32,
) -> Result<(), End>
    requires { doors.old ≡ [] }
    ensures opens { spec.OpensDoors M.D.shown (record { address = address.now; connections = connections })
        (M.shown opener.old).held (M.shown opener.new).held doors.new }
    ensures all { OnOk result (length doors.new ≡ count) }
    ensures calm { OnOk result ((M.shown opener.new).faults ≡ (M.shown opener.old).faults) }
    ensures stops { IfErr result (spec.StopsShort DoorFault (length doors.new) count
        (M.shown opener.old).faults (M.shown opener.new).faults) }
{
    let Ok(()) = doors.items.reserve(count as usize) else {
        return Err(End::NoMemory);
    };
    for number in 0..count {
        match opener.door(alloc, address, connections) {
            Ok(door) => doors.items.push_reserved(door),
            Err(fail) => return Err(end_of(fail, End::DoorFault(number))),
        }
    }
    Ok(())
}

// Opens the inboxes of the folders. Room for all is made first.
#[tactic(auto, using(crate::proofs::OpeningLemmas::inboxes))]
fn open_inboxes<M: Machine>(
    alloc: Global,
    opener: &mut M,
    inboxes: &mut List<M::I>,
    folders: &[Bytes],
) -> Result<(), End>
    requires empty { inboxes.old ≡ [] }
    requires few { length folders.now < 2 ^ 32 }
    ensures opens { spec.OpensInboxes M.I.shown folders.now (M.shown opener.old).held (M.shown opener.new).held
        inboxes.new }
    ensures all { OnOk result (length inboxes.new ≡ length folders.now) }
    ensures calm { OnOk result ((M.shown opener.new).faults ≡ (M.shown opener.old).faults) }
    ensures stops { IfErr result (spec.StopsShort InboxFault (length inboxes.new) (length folders.now)
        (M.shown opener.old).faults (M.shown opener.new).faults) }
{
    let Ok(()) = inboxes.items.reserve(folders.len()) else {
        return Err(End::NoMemory);
    };
    for number in 0..folders.len() {
        match opener.inbox(alloc, folders[number].as_slice()) {
            Ok(inbox) => inboxes.items.push_reserved(inbox),
            Err(fail) => return Err(end_of(fail, End::InboxFault(number as u32))),
        }
    }
    Ok(())
}

// Opens `count` clocks of `ticks` ticks each. Room for all is made first.
#[tactic(auto, using(crate::proofs::OpeningLemmas::clocks))]
fn open_clocks<M: Machine>(
    opener: &mut M,
    clocks: &mut List<M::C>,
    count: u32,
    ticks: u32,
) -> Result<(), NoMemory>
    requires { clocks.old ≡ [] }
    ensures opens { spec.OpensClocks M.C.shown ticks (M.shown opener.old).held (M.shown opener.new).held clocks.new }
    ensures all { OnOk result (length clocks.new ≡ count) }
    ensures calm { (M.shown opener.new).faults ≡ (M.shown opener.old).faults }
{
    let Ok(()) = clocks.items.reserve(count as usize) else {
        return Err(NoMemory);
    };
    for _number in 0..count {
        clocks.items.push_reserved(opener.clock(ticks));
    }
    Ok(())
}

// Opens all devices of a server. Where that stops short, the opened ones stand in their lists.
fn open_devices<M: Machine>(
    alloc: Global,
    opener: &mut M,
    asked: &Asked<'_>,
    opened: &mut Opened<M>,
) -> Result<(), End>
    requires few { length asked.now.inboxes.now < 2 ^ 32 }
    requires none { opened.old ≡ record { doors = []; inboxes = []; clocks = [] } }
    ensures opens { asking.OpensDevices (shows M.D.shown M.D.L.shown M.I.shown M.C.shown) (asking.wanted_of asked.now)
        (M.shown opener.old).held (M.shown opener.new).held opened.new }
    ensures all { OnOk result
        (asking.AreAllOpened (asking.wanted_of asked.now) opened.new (M.shown opener.old).faults
        (M.shown opener.new).faults) }
    ensures stops { IfErr result
        (asking.StopsAt (asking.wanted_of asked.now) opened.new (M.shown opener.old).faults
        (M.shown opener.new).faults) }
{
    open_doors(
        alloc,
        opener,
        &mut opened.doors,
        asked.listen,
        asked.connections,
        asked.workers,
    )?;
    open_inboxes(alloc, opener, &mut opened.inboxes, asked.inboxes)?;
    open_clocks(opener, &mut opened.clocks, asked.clocks, asked.ticks)?;
    Ok(())
}

// How many threads a run needs beside its own: it has a worker for each device.
fn threads_for(asked: &Asked<'_>) -> usize {
    let workers = (asked.workers as usize)
        .saturating_add(asked.inboxes.len())
        .saturating_add(asked.clocks as usize);
    workers.saturating_sub(1)
}

/// Opens all devices of a server. Where a worker for each can't have a thread of its own, nothing is opened: one that
/// waits for another one would leave its links waiting.
pub fn open_all<R: Threads + Wait + Sync, M: Machine>(
    rt: &R,
    alloc: Global,
    asked: &Asked<'_>,
    opener: &mut M,
    devices: &mut Opened<M>,
) -> Result<(), End>
    requires few { length asked.now.inboxes.now < 2 ^ 32 }
    requires none { devices.old ≡ record { doors = []; inboxes = []; clocks = [] } }
    ensures opens { asking.OpensDevices (shows M.D.shown M.D.L.shown M.I.shown M.C.shown) (asking.wanted_of asked.now)
        (M.shown opener.old).held (M.shown opener.new).held devices.new }
    ensures all { OnOk result
        (asking.AreAllOpened (asking.wanted_of asked.now) devices.new (M.shown opener.old).faults
        (M.shown opener.new).faults) }
    ensures stops { IfErr result
        (asking.StopsAt (asking.wanted_of asked.now) devices.new (M.shown opener.old).faults
        (M.shown opener.new).faults) }
{
    if !can_start(rt, threads_for(asked)) {
        return Err(End::NoMemory);
    }
    open_devices(alloc, opener, asked, devices)
}
