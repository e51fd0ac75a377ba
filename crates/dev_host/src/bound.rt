//! Sockets that listen, which doors at the same address share.
ghost use Rattle.std.specs.Option.{option_copied};
ghost use Rattle.std.specs.Prelude.{◌≡◌};
ghost use Rattle.dev_host.specs.Bound.{listener_at};

use crate::collections::Prefix;
use crate::telling::Teller;
use dev_net::Voice;
use dev_std::{Tell, fail_of, tell_unopened};
use dev_traits::Failed;
use fm_base::{Bytes, Fail, List, NoMemory};
use std::alloc::{AllocError, Global};
use std::io::{self, Error, ErrorKind};
use std::net::{Net, TcpListener, ToSocketAddrs};
use std::{rt, str};

// A socket that listens, by the address at which it was opened.
#[derive(Drop)]
pub(crate) struct Bound {
    pub address: Bytes,
    pub listener: TcpListener,
}

// The socket that was opened at this very address.
fn bound_at<'a>(bound: &'a [Bound], address: &[u8]) -> Option<&'a TcpListener>
    ensures { option_copied result ≡ listener_at bound.now address.now }
{
    for one in bound {
        if one.address.as_slice() == address {
            return Some(&one.listener);
        }
    }
    None
}

// What tells of the first door at an address. The system lacks what it lacks for all of them.
pub(crate) fn voice_at<R: rt::Clock + Net + AllocGlobal + Clone + Drop>(
    bound: &[Bound],
    tell: &Teller<R>,
    alloc: Global,
    address: &[u8],
) -> Result<Option<Voice<Teller<R>>>, NoMemory> {
    if bound_at(bound, address).is_some() {
        return Ok(None);
    }
    let place = String::from_str(alloc, str::from_utf8(address).unwrap_or(""))?;
    match tell.about(Prefix::none()) {
        Ok(tell) => Ok(Some(Voice { tell, place })),
        Err(AllocError) => {
            drop(place);
            Err(NoMemory)
        }
    }
}

// The socket that listens at an address, which is opened where it wasn't before.
pub(crate) fn shared_listener<R: Net, T: Tell>(
    bound: &mut List<Bound>,
    rt: &R,
    tell: &T,
    alloc: Global,
    address: &[u8],
) -> Result<TcpListener, Fail<Failed>> {
    if let Some(listener) = bound_at(bound.as_slice(), address) {
        return shared(listener);
    }
    let listener = bind(rt, tell, address)?;
    share_at(bound, alloc, address, listener)
}

// Keeps a socket for the next doors at its address. Returns it for this one.
fn share_at(
    bound: &mut List<Bound>,
    alloc: Global,
    address: &[u8],
    listener: TcpListener,
) -> Result<TcpListener, Fail<Failed>> {
    let door = shared(&listener)?;
    match keep_at(bound, alloc, address, listener) {
        Ok(()) => Ok(door),
        Err(NoMemory) => {
            drop(door);
            Err(Fail::NoMemory)
        }
    }
}

// Keeps a socket for the next doors at its address.
fn keep_at(
    bound: &mut List<Bound>,
    alloc: Global,
    address: &[u8],
    listener: TcpListener,
) -> Result<(), NoMemory> {
    let address = List::copy_of(alloc, address)?;
    bound.push(Bound { address, listener })
}

// The same socket for one more door.
fn shared(listener: &TcpListener) -> Result<TcpListener, Fail<Failed>> {
    match listener.try_clone() {
        Ok(listener) => Ok(listener),
        Err(error) => Err(fail_of(&error)),
    }
}

// Opens a socket that listens at an address, which is text, with the longest queue that the system allows.
fn bind<R: Net, T: Tell>(rt: &R, tell: &T, address: &[u8]) -> Result<TcpListener, Fail<Failed>> {
    let Ok(address) = str::from_utf8(address) else {
        return Err(Fail::Fault(Failed));
    };
    match bind_any(rt, address) {
        Ok(listener) => Ok(TcpListener::from(listener)),
        Err(error) => Err(tell_unopened(tell, address, error)),
    }
}

// The first socket that can be opened of those that an address means.
fn bind_any<R: Net>(rt: &R, address: &str) -> io::Result<mio::net::TcpListener> {
    let mut failed = Error::from(ErrorKind::NotFound);
    for address in address.to_socket_addrs(rt)? {
        match mio::net::TcpListener::bind(rt, address) {
            Ok(listener) => return Ok(listener),
            Err(error) => failed = error,
        }
    }
    Err(failed)
}
