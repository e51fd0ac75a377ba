//! What the opener of a machine opens, and what its files give.

use super::dialled::address_of;
use super::ways::HostDoor;
use crate::calls::{put_fault, put_found};
use dev_host::HostOpener;
use dev_std::RealFiles;
use dev_traits::{Clock, Files, Machine};
use row_text::Said;
use std::alloc::Global;
use std::net::SocketAddr;

// The most bytes of a file that is read.
const LIMIT: u64 = 6;

// A second that has passed.
const PASSED: i64 = 1_700_000_000;

// Does a step that opens or reads something: `open ADDRESS`, `inbox PATH`, `clock`, `read PATH`, where `door` is the
// address of the last door. It is false where a line says none.
pub(crate) fn put_open_step(
    rt: HostRuntime,
    opener: &mut HostOpener,
    doors: &mut Vec<HostDoor>,
    address: Option<SocketAddr>,
    step: &str,
    out: &mut Said,
) -> bool {
    let alloc = rt.alloc();
    let (word, text) = step.split_once(' ').unwrap_or((step, ""));
    let Some(path) = address_of(alloc, address, text) else {
        return false;
    };
    let known = if word == "read" {
        put_read(&mut RealFiles::new(rt), alloc, path.as_slice(), out)
    } else {
        put_opened(alloc, opener, doors, word, path.as_slice(), out)
    };
    drop(path);
    known
}

fn put_opened(
    alloc: Global,
    opener: &mut HostOpener,
    doors: &mut Vec<HostDoor>,
    word: &str,
    path: &[u8],
    out: &mut Said,
) -> bool {
    let is_open = match word {
        "open" => opens_door(alloc, opener, doors, path),
        "inbox" => opens_inbox(alloc, opener, path),
        "clock" => opens_clock(opener),
        _ => return false,
    };
    if is_open {
        out.put("open\n");
    } else {
        put_fault(opener.faults(), out);
    }
    true
}

fn opens_door(
    alloc: Global,
    opener: &mut HostOpener,
    doors: &mut Vec<HostDoor>,
    address: &[u8],
) -> bool {
    match opener.door(alloc, address, 1) {
        Ok(door) => doors.push(door).is_ok(),
        Err(_) => false,
    }
}

fn opens_inbox(alloc: Global, opener: &mut HostOpener, path: &[u8]) -> bool {
    let inbox = opener.inbox(alloc, path);
    let is_open = inbox.is_ok();
    drop(inbox);
    is_open
}

fn opens_clock(opener: &mut HostOpener) -> bool {
    let mut clock = opener.clock(1);
    let gives_one = gives_one(&mut clock);
    drop(clock);
    gives_one
}

// Whether a clock gives the present moment alone.
fn gives_one<C: Clock>(clock: &mut C) -> bool {
    match clock.next() {
        Some(moment) => PASSED < moment && clock.next().is_none(),
        None => false,
    }
}

fn put_read<F: Files>(files: &mut F, alloc: Global, path: &[u8], out: &mut Said) -> bool {
    let found = files.read(alloc, path, LIMIT);
    put_found(&found, out);
    drop(found);
    true
}
