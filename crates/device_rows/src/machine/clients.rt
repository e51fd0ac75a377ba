//! Clients of the machine's doors.

use crate::calls::put_shown_line;
use row_text::Said;
use std::alloc::Global;
use std::io::{Read, Write};
use std::net::{Shutdown, SocketAddr, TcpStream};
use std::time::Duration;

// For how many seconds a client waits for what it hears.
const PATIENCE: u64 = 20;

// Does a step of a client: `connect` adds one, a client of the last door; `other client` has the first and the last
// change their turns; `leave` closes the last one's connection; and what the last one says and hears. It is false where
// a line says none.
pub(crate) fn put_client_step(
    rt: &HostRuntime,
    address: Option<SocketAddr>,
    clients: &mut Vec<TcpStream>,
    step: &str,
    out: &mut Said,
) -> bool {
    match step {
        "connect" => connect(rt, address, clients).is_some(),
        "other client" => change_turns(clients.as_mut_slice()),
        "leave" => leave(clients),
        _ => put_talk(rt.alloc(), clients, step, out),
    }
}

fn connect(
    rt: &HostRuntime,
    address: Option<SocketAddr>,
    clients: &mut Vec<TcpStream>,
) -> Option<()> {
    let client = TcpStream::connect(rt, address?).ok()?;
    let waits = client.set_read_timeout(Some(Duration::from_secs(PATIENCE)));
    clients.push(client).ok()?;
    waits.ok()
}

/// Has the first and the last of these change their turns.
pub(crate) fn change_turns<T>(all: &mut [T]) -> bool {
    if all.is_empty() {
        return false;
    }
    all.swap(0, all.len() - 1);
    true
}

fn leave(clients: &mut Vec<TcpStream>) -> bool {
    let client = clients.pop();
    let is_one = client.is_some();
    drop(client);
    is_one
}

// Has the last client say or hear something: `send TEXT`, `flood COUNT` for a thousand bytes so often, `end` for the
// end of what it sends, `hear` for all up to the end. It is false where a line says none, or nothing can be sent.
fn put_talk(alloc: Global, clients: &mut Vec<TcpStream>, step: &str, out: &mut Said) -> bool {
    let Some(client) = clients.last_mut() else {
        return false;
    };
    match step.split_once(' ').unwrap_or((step, "")) {
        ("send", text) => client.write_all(text.as_bytes()).is_ok(),
        ("flood", count) => floods(client, count),
        ("end", "") => client.shutdown(Shutdown::Write).is_ok(),
        ("hear", "") => put_heard(alloc, client, out),
        _ => false,
    }
}

fn floods(client: &mut TcpStream, count: &str) -> bool {
    let count = count.parse::<u32>().unwrap_or(0);
    for _ in 0..count {
        if client.write_all(&[b'x'; 1000]).is_err() {
            return false;
        }
    }
    count > 0
}

fn put_heard(alloc: Global, client: &mut TcpStream, out: &mut Said) -> bool {
    let mut bytes = Vec::new(alloc);
    let is_heard = client.read_to_end(&mut bytes).is_ok();
    put_shown_line(bytes.as_slice(), out);
    drop(bytes);
    is_heard
}
