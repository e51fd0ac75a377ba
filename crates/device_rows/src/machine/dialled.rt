//! A dialer of the machine, and its link.

use crate::calls::{put_call, put_fault};
use crate::stepped::word_and_number;
use dev_host::{DialledLink, TcpDial};
use dev_traits::Dial;
use row_text::{Said, bytes};
use std::alloc::Global;
use std::net::SocketAddr;
use std::time::Duration;

// A link, and the dialer that gave it.
#[derive(Drop)]
pub(crate) struct Dialled {
    dial: TcpDial<HostRuntime>,
    link: DialledLink,
}

// Does a step of a dialer: `dial ADDRESS PATIENCE`, where the address may be `door` for that of the last door;
// `dialled CALL` for a call of its link; `hang up`. It is false where a line says none.
pub(crate) fn put_dial_step(
    rt: &HostRuntime,
    address: Option<SocketAddr>,
    dialled: &mut Option<Dialled>,
    step: &str,
    out: &mut Said,
) -> bool {
    match step.split_once(' ').unwrap_or((step, "")) {
        ("dial", words) => put_dial(rt, address, dialled, words, out).is_some(),
        ("dialled", call) => put_dialled(dialled, call, out),
        ("hang", "up") => hang_up(dialled),
        _ => false,
    }
}

// Dials the address that words say, or that of a door.
fn put_dial(
    rt: &HostRuntime,
    address: Option<SocketAddr>,
    dialled: &mut Option<Dialled>,
    words: &str,
    out: &mut Said,
) -> Option<()> {
    let (word, patience) = word_and_number(words);
    let patience = patience?;
    let peer = address_of(rt.alloc(), address, word)?;
    put_dial_at(*rt, patience, peer.as_slice(), dialled, out);
    drop(peer);
    Some(())
}

// The bytes of an address that a word says, or of that of a door.
pub(crate) fn address_of(
    alloc: Global,
    address: Option<SocketAddr>,
    word: &str,
) -> Option<Vec<u8>> {
    if word != "door" {
        return bytes(alloc, word).ok()?;
    }
    let address = address?;
    Some(format!(in alloc; "{address}").ok()?.into_bytes())
}

fn put_dial_at(
    rt: HostRuntime,
    patience: u64,
    peer: &[u8],
    dialled: &mut Option<Dialled>,
    out: &mut Said,
) {
    let mut dial = TcpDial::new(rt, Duration::from_millis(patience));
    match dial.dial(rt.alloc(), peer) {
        Ok(link) => *dialled = Some(Dialled { dial, link }),
        Err(_) => put_fault(dial.faults(), out),
    }
}

fn put_dialled(dialled: &mut Option<Dialled>, call: &str, out: &mut Said) -> bool {
    match dialled {
        Some(dialled) => put_call(&mut dialled.link, call, out),
        None => false,
    }
}

// Gives the link back.
fn hang_up(dialled: &mut Option<Dialled>) -> bool {
    let Some(Dialled { mut dial, link }) = dialled.take() else {
        return false;
    };
    dial.done(link);
    drop(dial);
    true
}
