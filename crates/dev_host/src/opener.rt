//! What opens the doors, inboxes and clocks of the machine.
ghost use Rattle.std.specs.Prelude.{◌≡◌, None};

use crate::clock::RealClock;
use crate::collections::Collections;
use crate::descriptors::connections_left;
use crate::host::Host;
use crate::notice::tell_with_room;
use crate::telling::Teller;
use dev_folder::{FolderInbox, Lockable};
use dev_net::{TcpDial, TcpDoor};
use dev_std::{RealFiles, StdLink, StdSink, counted_fault};
use dev_traits::{Door, Failed, Inbox, Machine, OpenGate};
use fm_base::Fail;
use std::alloc::Global;
use std::marker::Send;
use std::net::Net;
use std::rt;

/// Opens doors at sockets, inboxes of folders and the machine's clock. Doors that are opened at the same address share
/// one socket, and a folder is opened by one opener of the machine at a time. It tells why what can't be opened can't.
#[derive(Drop)]
pub struct RealOpener<R: rt::Files + Drop> {
    host: Host<R>,
    // whose inboxes and clocks are opened
    collections: Collections,
    faults: u64,
}

impl<R> RealOpener<R>
where
    R: rt::Files + rt::Clock + Net + AllocGlobal + Clone + Drop,
    R::File: Lockable,
{
    /// What opens by this runtime, for these collections. Nothing is open, and no call has failed.
    pub fn new(rt: R, tell: Teller<R>, collections: Collections) -> RealOpener<R>
        ensures { result.faults ≡ 0 }
    {
        RealOpener {
            host: Host::new(rt, tell),
            collections,
            faults: 0,
        }
    }
}

impl<R> Machine for RealOpener<R>
where
    R: rt::Files + rt::Clock + Net + AllocGlobal + Clone + Drop + Send,
    R::File: Lockable,
{
    type D = TcpDoor<R, Teller<R>>;

    type I = FolderInbox<R, Teller<R>>;

    type C = RealClock<R, Teller<R>>;

    type F = RealFiles<R>;

    type L = StdLink;

    type S = StdSink;

    type G = OpenGate;

    type N = TcpDial<HostRuntime>;

    ghost shown = { λ opener. record { held = None; faults = opener.faults } };

    fn faults(&self) -> u64 {
        self.faults
    }

    fn door(
        &mut self,
        alloc: Global,
        address: &[u8],
        connections: u32,
    ) -> Result<TcpDoor<R, Teller<R>>, Fail<Failed>> {
        let door = self.host.door(alloc, address, connections);
        counted_fault(&mut self.faults, door)
    }

    fn inbox(
        &mut self,
        alloc: Global,
        folder: &[u8],
    ) -> Result<FolderInbox<R, Teller<R>>, Fail<Failed>> {
        let prefix = self.collections.next_inbox();
        let inbox = self.host.inbox(alloc, prefix, folder);
        counted_fault(&mut self.faults, inbox)
    }

    fn clock(&mut self, ticks: u32) -> RealClock<R, Teller<R>> {
        let prefix = self.collections.next_clock();
        self.host.clock(prefix, ticks)
    }

    /// Behind the line stands how many connections there is room for beside what is open, where the system says it.
    fn note(&mut self, line: &[&[u8]]) {
        let room = connections_left(&self.host.rt, self.host.rt.alloc());
        tell_with_room(&self.host.tell, line, room);
    }
}
