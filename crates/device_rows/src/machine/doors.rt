//! Doors of the machine at ports of their own.

use super::clients::change_turns;
use super::ways::HostDoor;
use crate::stepped::word_and_number;
use dev_host::{Patience, Stops, TcpDoor};
use row_text::Said;
use std::net::{SocketAddr, TcpListener};

// For how many milliseconds peers are waited for beyond their patience.
const GRACE: u64 = 40_000;

// Does a step of doors: `door CONNECTIONS PATIENCE` opens one at a port of its own; `other door` has the first and the
// last change their turns; `same` tells whether these are at one address. It is false where a line says none.
pub(crate) fn put_door_step(
    rt: HostRuntime,
    doors: &mut Vec<HostDoor>,
    step: &str,
    out: &mut Said,
) -> bool {
    match step.split_once(' ').unwrap_or((step, "")) {
        ("door", words) => add_door(rt, words, doors).is_some(),
        ("other", "door") => change_turns(doors.as_mut_slice()),
        ("same", "") => put_same(doors.as_slice(), out).is_some(),
        _ => false,
    }
}

fn add_door(rt: HostRuntime, words: &str, doors: &mut Vec<HostDoor>) -> Option<()> {
    let (connections, idle) = word_and_number(words);
    let door = own_door(rt, connections.parse::<u32>().ok()?, idle?)?;
    doors.push(door).ok()
}

// A door at a port of its own, for this number of connections and with this patience, in milliseconds.
fn own_door(rt: HostRuntime, connections: u32, idle: u64) -> Option<HostDoor> {
    let patience = Patience { idle, grace: GRACE };
    let stops = Stops::new(rt.alloc()).ok()?;
    match TcpListener::bind(&rt, "127.0.0.1:0") {
        Ok(listener) => TcpDoor::new(rt, rt.alloc(), listener, connections, patience, stops).ok(),
        Err(_) => {
            drop(stops);
            None
        }
    }
}

fn put_same(doors: &[HostDoor], out: &mut Said) -> Option<()> {
    let first = doors.first()?.local_addr().ok()?;
    out.put(if first == last_address(doors)? {
        "one address\n"
    } else {
        "two addresses\n"
    });
    Some(())
}

/// The address of the last door.
pub(crate) fn last_address(doors: &[HostDoor]) -> Option<SocketAddr> {
    doors.last()?.local_addr().ok()
}
