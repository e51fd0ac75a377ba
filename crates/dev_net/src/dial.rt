//! A dialer over the machine's sockets.
ghost use Rattle.std.specs.Prelude.{◌≡◌, None, IfOk};
ghost use Rattle.dev_traits.specs.Door.{IsFresh};

use dev_std::{StreamLink, counted_fault, fail_of};
use dev_traits::{Dial, Failed, Link};
use fm_base::Fail;
use std::alloc::Global;
use std::io::{self, Error, ErrorKind};
use std::net::{Net, TcpListener, TcpStream, ToSocketAddrs};
use std::str;
use std::time::Duration;

/// A link over a socket that was dialled. It blocks: a read or a write that would wait longer than the dialer's
/// patience has failed.
pub type DialledLink = StreamLink<TcpStream, TcpStream>;

/// A dialer over the machine's sockets, which waits for a peer only so long.
#[derive(Drop)]
pub struct TcpDial<R: Drop> {
    rt: R,
    patience: Duration,
    faults: u64,
}

impl<R: Net<Listener = TcpListener, Stream = TcpStream> + Drop> TcpDial<R> {
    /// A dialer of this patience. No call has failed.
    pub fn new(rt: R, patience: Duration) -> TcpDial<R>
        ensures { result.faults ≡ 0 }
    {
        TcpDial {
            rt,
            patience,
            faults: 0,
        }
    }

    // A link to the peer at an address, which is text.
    fn link_to(&self, address: &[u8]) -> Result<DialledLink, Fail<Failed>>
        ensures { IfOk result (λ link. IsFresh (⟦<DialledLink as Link>⟧.shown link)) }
    {
        let Ok(address) = str::from_utf8(address) else {
            return Err(Fail::Fault(Failed));
        };
        match connect(&self.rt, address, self.patience) {
            Ok(link) => Ok(link),
            Err(error) => Err(fail_of(&error)),
        }
    }
}

impl<R: Net<Listener = TcpListener, Stream = TcpStream> + Drop> Dial for TcpDial<R> {
    type L = DialledLink;

    ghost shown = { λ dial. record { held = None; faults = dial.faults } };

    fn faults(&self) -> u64 {
        self.faults
    }

    fn dial(&mut self, _alloc: Global, address: &[u8]) -> Result<DialledLink, Fail<Failed>> {
        let link = self.link_to(address);
        counted_fault(&mut self.faults, link)
    }

    fn done(&mut self, _link: DialledLink) {}
}

// A link to a peer at an address.
fn connect<R: Net<Listener = TcpListener, Stream = TcpStream>>(
    rt: &R,
    address: &str,
    patience: Duration,
) -> io::Result<DialledLink>
    ensures { IfOk result (λ link. IsFresh (⟦<DialledLink as Link>⟧.shown link)) }
{
    let output = connect_any(rt, address, patience)?;
    match input_of(&output, patience) {
        Ok(input) => Ok(StreamLink::new(input, output)),
        Err(error) => {
            drop(output);
            Err(error)
        }
    }
}

// A socket to the first peer that can be reached of those that an address means.
fn connect_any<R: Net<Listener = TcpListener, Stream = TcpStream>>(
    rt: &R,
    address: &str,
    patience: Duration,
) -> io::Result<TcpStream> {
    let mut failed = Error::from(ErrorKind::NotFound);
    for address in address.to_socket_addrs(rt)? {
        match TcpStream::connect_timeout(rt, &address, patience) {
            Ok(stream) => return Ok(stream),
            Err(error) => failed = error,
        }
    }
    Err(failed)
}

// The same socket to take from, once its calls wait only so long.
fn input_of(output: &TcpStream, patience: Duration) -> io::Result<TcpStream> {
    output.set_read_timeout(Some(patience))?;
    output.set_write_timeout(Some(patience))?;
    output.try_clone()
}
