//! The world of a process.
ghost use Rattle.std.specs.Prelude.{◌≡◌, []};
ghost use Rattle.dev_std.specs.Process.{is_errors, names_sender};

use crate::collections::Collections;
use crate::opener::RealOpener;
use crate::telling::Teller;
use dev_net::TcpDial;
use dev_std::{RealFiles, StdLink, StdSink, StdStream};
use dev_traits::{Devices, Dial, Files, Link, Machine, OpenGate, Sink, World};
use fm_base::{Bytes, List};
use std::time::Duration;

/// For how many seconds a run waits for a peer that it dialled, at each call.
const PATIENCE: u64 = 30;

/// What opens the machine's sockets, folders and clock.
pub type HostOpener = RealOpener<HostRuntime>;

/// The world of a process: the machine's sockets, folders, clock and files, and the standard streams.
pub type HostWorld = World<HostOpener>;

/// The world of a run with these words: what opens the machine's doors, inboxes and clocks, its files, standard input
/// and output as the link, the sink that `StdStream::of_words` picks, and a dialer. Nothing is open, and no call has
/// failed.
pub fn host_world(rt: HostRuntime, words: &List<Bytes>) -> HostWorld
    ensures opener { (⟦<HostOpener as Machine>⟧.shown result.opener).faults ≡ 0 }
    ensures doors { result.devices.doors ≡ [] }
    ensures inboxes { result.devices.inboxes ≡ [] }
    ensures clocks { result.devices.clocks ≡ [] }
    ensures files { (⟦<RealFiles<HostRuntime> as Files>⟧.shown result.files).faults ≡ 0 }
    ensures link { (⟦<StdLink as Link>⟧.shown result.link).faults ≡ 0 }
    ensures sink { (⟦<StdSink as Sink>⟧.shown result.sink).faults ≡ 0 }
    ensures dial { (⟦<TcpDial<HostRuntime> as Dial>⟧.shown result.dial).faults ≡ 0 }
    ensures stream { is_errors result.sink.output ≡ names_sender words.now }
{
    World {
        opener: opener_of(rt, words.as_slice()),
        devices: Devices::none(rt.alloc()),
        files: RealFiles::new(rt),
        link: StdLink::new(rt.stdin(), rt.stdout()),
        sink: StdSink::new(StdStream::of_words(words.as_slice(), rt.stdout(), rt.stderr())),
        gate: OpenGate,
        dial: TcpDial::new(rt, Duration::from_secs(PATIENCE)),
    }
}

// What opens the machine's devices for a run with these words.
fn opener_of(rt: HostRuntime, words: &[Bytes]) -> HostOpener
    ensures { (⟦<HostOpener as Machine>⟧.shown result).faults ≡ 0 }
{
    let tell = Teller::new(rt, rt.stderr(), is_quiet(words));
    RealOpener::new(rt, tell, Collections::of_words(words))
}

// Whether the words of a server ask it to leave its lines out: `--quiet` stands before any `--`. No value is such a
// word.
fn is_quiet(words: &[Bytes]) -> bool {
    for word in words {
        if word.as_slice() == b"--".as_slice() {
            return false;
        }
        if word.as_slice() == b"--quiet".as_slice() {
            return true;
        }
    }
    false
}
