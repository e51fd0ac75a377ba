//! All workers of a run over two to four desks, whose names are of the run.
ghost use Rattle.std.specs.Prelude.{◌≡◌, ◌⊎◌, ◌∷◌, ◌-◌, ◌<◌, ◌≤◌, [], All, IfOk, OnErr, drop, length};
ghost use Rattle.fm_model.specs.Site.{IsPrototype};
ghost use Rattle.pub_snap.specs.Opening.{IsNamed};
ghost use Rattle.srv_workers.specs.Desks.{first_of};
ghost use Rattle.srv_workers.specs.Opened.{AreBlanks, HasOneEach, blank_at};
ghost use Rattle.srv_workers.specs.Several.{RanSeveral};

use crate::ahead::{run_with, run_with_one, run_with_two};
use crate::behind::Behind;
use crate::blanks::blanks_of;
use crate::outcome::Outcomes;
use dev_traits::{Machine, Opened};
use fm_base::{Arc, List, NoMemory};
use fm_model::Proto;
use pub_snap::{Blank, Desk, Name};
use std::alloc::Global;
use std::marker::Brand;
use std::sync::Wait;
use std::thread::Threads;

// Runs workers over the last desk, which has a name, and one to three before it.
fn run_before<R: Threads + Wait + Sync, M: Machine, X: Behind + Send>(
    rt: &R,
    alloc: Global,
    blanks: List<Blank>,
    protos: &[Arc<Proto>],
    clocks: usize,
    keep: u32,
    gate: &M::G,
    devices: &mut Opened<M>,
) -> Result<Outcomes, NoMemory>
where
    X::Eyes: Send,
    X::Passes: Send,
    X::Hand: Send,
    X::Shared: Sync,
    X::Receipts: Send,
    X::Back: Send,
    requires blanks { AreBlanks (length devices.old.doors) clocks protos.now blanks }
    requires last { X.are_blank (length devices.old.doors) clocks (drop (length protos.now - 1) blanks) }
    requires protos { drop (length protos.now - 1) protos.now
        ≡ first_of X.means.them.count X.means.them.proto }
    requires few { (2 ≤ length protos.now) × (length protos.now ≤ 4) }
    requires devices { HasOneEach (length protos.now) clocks devices.old }
    ensures ran { IfOk result
        (RanSeveral M.D.shown M.D.L.shown M.I.shown M.C.shown protos.now keep devices.old devices.new) }
    ensures none { OnErr result (devices.new ≡ devices.old) }
{
    match protos.len() {
        2 => run_with::<R, M, Brand, X>(rt, alloc, blanks, protos, clocks, keep, gate, devices),
        3 => run_with_one::<R, M, Brand, X>(rt, alloc, blanks, protos, clocks, keep, gate, devices),
        _ => run_with_two::<R, M, Brand, X>(rt, alloc, blanks, protos, clocks, keep, gate, devices),
    }
}

// The same, where the name of the last desk is that of its blank.
fn run_last<R: Threads + Wait + Sync, M: Machine, N: Name + Send + Sync>(
    rt: &R,
    alloc: Global,
    blanks: List<Blank>,
    protos: &[Arc<Proto>],
    clocks: usize,
    keep: u32,
    gate: &M::G,
    devices: &mut Opened<M>,
) -> Result<Outcomes, NoMemory>
    requires blanks { AreBlanks (length devices.old.doors) clocks protos.now blanks }
    requires last { IsNamed (blank_at (length protos.now - 1) blanks) N.book N.name N.proto N.parts }
    requires protos { drop (length protos.now - 1) protos.now ≡ N.proto ∷ [] }
    requires few { (2 ≤ length protos.now) × (length protos.now ≤ 4) }
    requires devices { HasOneEach (length protos.now) clocks devices.old }
    ensures ran { IfOk result
        (RanSeveral M.D.shown M.D.L.shown M.I.shown M.C.shown protos.now keep devices.old devices.new) }
    ensures none { OnErr result (devices.new ≡ devices.old) }
{
    run_before::<R, M, Desk<N>>(rt, alloc, blanks, protos, clocks, keep, gate, devices)
}

// How many clocks there are of each collection: none, or one.
fn clocks_each<C>(clocks: &List<C>) -> usize
    ensures none { length clocks.now ≡ 0 → result ≡ 0 }
    ensures some { 0 < length clocks.now → result ≡ 1 }
    ensures few { result ≤ 1 }
{
    if clocks.is_empty() { 0 } else { 1 }
}

/// Opens a desk over each of two to four prototypes, and has a worker for each device, all at once: each door is served
/// over all collections, what arrives in the inbox of a number is taken in at the desk of that number, and at each
/// moment of a clock the runs of its desk go that are more than `keep` seconds old. It waits for all workers. Then each
/// learns the whole logs, the desks are closed, and the devices are given back. Where memory runs out before all desks
/// are open, no worker runs, and the devices are as they were.
pub fn run_several<R: Threads + Wait + Sync, M: Machine>(
    rt: &R,
    alloc: Global,
    protos: &[Arc<Proto>],
    keep: u32,
    gate: &M::G,
    devices: &mut Opened<M>,
) -> Result<Outcomes, NoMemory>
    requires protos { (2 ≤ length protos.now) × (length protos.now ≤ 4) × All IsPrototype protos.now }
    requires doors { (1 ≤ length devices.old.doors) × (length devices.old.doors ≤ 16) }
    requires inboxes { length devices.old.inboxes ≡ length protos.now }
    requires clocks { (length devices.old.clocks ≡ 0) ⊎ (length devices.old.clocks ≡ length protos.now) }
    ensures ran { IfOk result
        (RanSeveral M.D.shown M.D.L.shown M.I.shown M.C.shown protos.now keep devices.old devices.new) }
    ensures none { OnErr result (devices.new ≡ devices.old) }
{
    let clocks = clocks_each(&devices.clocks);
    let blanks = blanks_of(alloc, protos, devices.doors.len(), clocks)?;
    run_last::<R, M, Brand>(rt, alloc, blanks, protos, clocks, keep, gate, devices)
}
