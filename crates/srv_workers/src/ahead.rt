//! All workers of a run over desks, of which the first ones get their names one by one in front of others. Each call
//! adds one desk to whatever stands behind it, since what a proof has to see of desks inside desks grows fast.
ghost use Rattle.std.specs.Prelude.{◌≡◌, ◌∷◌, ◌<◌, ◌≤◌, IfOk, OnErr, drop, length};
ghost use Rattle.pub_snap.specs.Opening.{IsNamed};
ghost use Rattle.srv_workers.specs.Desks.{first_of};
ghost use Rattle.srv_workers.specs.Opened.{AreBlanks, HasOneEach, blank_at};
ghost use Rattle.srv_workers.specs.Several.{RanSeveral};

use crate::behind::Behind;
use crate::both::And;
use crate::many::run_desks;
use crate::outcome::Outcomes;
use dev_traits::{Machine, Opened};
use fm_base::{Arc, List, NoMemory};
use fm_model::Proto;
use pub_snap::{Blank, Desk, Name};
use std::alloc::Global;
use std::marker::Brand;
use std::sync::Wait;
use std::thread::Threads;

// Runs workers over a desk, which has a name, and others behind it.
pub(crate) fn run_with<
    R: Threads + Wait + Sync,
    M: Machine,
    N: Name + Send + Sync,
    X: Behind + Send,
>(
    rt: &R,
    alloc: Global,
    blanks: List<Blank>,
    protos: &[Arc<Proto>],
    clocks: usize,
    keep: u32,
    gate: &M::G,
    devices: &mut Opened<M>,
) -> Result<Outcomes, NoMemory>
where
    X::Eyes: Send,
    X::Passes: Send,
    X::Hand: Send,
    X::Shared: Sync,
    X::Receipts: Send,
    X::Back: Send,
    requires blanks { AreBlanks (length devices.old.doors) clocks protos.now blanks }
    requires first { IsNamed (blank_at 0 blanks) N.book N.name N.proto N.parts }
    requires others { X.are_blank (length devices.old.doors) clocks (drop 1 blanks) }
    requires protos { protos.now ≡ N.proto ∷ first_of X.means.them.count X.means.them.proto }
    requires few { (0 < length protos.now) × (length protos.now ≤ 8) }
    requires devices { HasOneEach (length protos.now) clocks devices.old }
    ensures ran { IfOk result
        (RanSeveral M.D.shown M.D.L.shown M.I.shown M.C.shown protos.now keep devices.old devices.new) }
    ensures none { OnErr result (devices.new ≡ devices.old) }
{
    run_desks::<R, M, And<Desk<N>, X>>(rt, alloc, blanks, protos, clocks, keep, gate, devices)
}

// The same with one desk more in front of them.
pub(crate) fn run_with_one<
    R: Threads + Wait + Sync,
    M: Machine,
    N: Name + Send + Sync,
    X: Behind + Send,
>(
    rt: &R,
    alloc: Global,
    blanks: List<Blank>,
    protos: &[Arc<Proto>],
    clocks: usize,
    keep: u32,
    gate: &M::G,
    devices: &mut Opened<M>,
) -> Result<Outcomes, NoMemory>
where
    X::Eyes: Send,
    X::Passes: Send,
    X::Hand: Send,
    X::Shared: Sync,
    X::Receipts: Send,
    X::Back: Send,
    requires blanks { AreBlanks (length devices.old.doors) clocks protos.now blanks }
    requires first { IsNamed (blank_at 1 blanks) N.book N.name N.proto N.parts }
    requires others { X.are_blank (length devices.old.doors) clocks (drop 2 blanks) }
    requires protos { drop 1 protos.now ≡ N.proto ∷ first_of X.means.them.count X.means.them.proto }
    requires few { (1 < length protos.now) × (length protos.now ≤ 8) }
    requires devices { HasOneEach (length protos.now) clocks devices.old }
    ensures ran { IfOk result
        (RanSeveral M.D.shown M.D.L.shown M.I.shown M.C.shown protos.now keep devices.old devices.new) }
    ensures none { OnErr result (devices.new ≡ devices.old) }
{
    run_with::<R, M, Brand, And<Desk<N>, X>>(rt, alloc, blanks, protos, clocks, keep, gate, devices)
}

// The same with two desks more.
pub(crate) fn run_with_two<
    R: Threads + Wait + Sync,
    M: Machine,
    N: Name + Send + Sync,
    X: Behind + Send,
>(
    rt: &R,
    alloc: Global,
    blanks: List<Blank>,
    protos: &[Arc<Proto>],
    clocks: usize,
    keep: u32,
    gate: &M::G,
    devices: &mut Opened<M>,
) -> Result<Outcomes, NoMemory>
where
    X::Eyes: Send,
    X::Passes: Send,
    X::Hand: Send,
    X::Shared: Sync,
    X::Receipts: Send,
    X::Back: Send,
    requires blanks { AreBlanks (length devices.old.doors) clocks protos.now blanks }
    requires first { IsNamed (blank_at 2 blanks) N.book N.name N.proto N.parts }
    requires others { X.are_blank (length devices.old.doors) clocks (drop 3 blanks) }
    requires protos { drop 2 protos.now ≡ N.proto ∷ first_of X.means.them.count X.means.them.proto }
    requires few { (2 < length protos.now) × (length protos.now ≤ 8) }
    requires devices { HasOneEach (length protos.now) clocks devices.old }
    ensures ran { IfOk result
        (RanSeveral M.D.shown M.D.L.shown M.I.shown M.C.shown protos.now keep devices.old devices.new) }
    ensures none { OnErr result (devices.new ≡ devices.old) }
{
    run_with_one::<R, M, Brand, And<Desk<N>, X>>(
        rt, alloc, blanks, protos, clocks, keep, gate, devices,
    )
}
