//! What a run left, as text.

use crate::given::Given;
use crate::output::put_output;
use crate::world::MemWorld;
use dev_memory::PausedLink;
use fm_base::{Bytes, NoMemory};
use row_text::Said;
use std::alloc::{AllocError, Global};

/// The status with the text of the sink, what was put on the link of the run, the addresses that were dialled, and what
/// was put on the links that the dialer was given back; then for each device that was opened what it was left with: the
/// outputs of a door's links that were given back, and the verdicts of an inbox or a clock; and at last the lines of
/// the journal, where they are to be shown.
pub fn left(
    alloc: Global,
    status: u8,
    world: &MemWorld<'_>,
    given: &Given,
) -> Result<String, NoMemory> {
    let mut out = Said::new(alloc);
    put_end(status, world, given.piece, &mut out);
    put_dialled(world, &mut out);
    put_doors(world, &mut out);
    put_verdicts(world, &mut out);
    world.gate.course.put(&mut out);
    if given.shows_lines {
        put_told(world, &mut out);
    }
    out.pop();
    match out.text() {
        Ok(text) => Ok(text),
        Err(AllocError) => Err(NoMemory),
    }
}

fn put_end(status: u8, world: &MemWorld<'_>, piece: usize, out: &mut Said) {
    let line = world.sink.bytes();
    out.put_number("status ", status);
    if line.is_empty() {
        out.put("\n");
    } else {
        out.put(": ");
        put_output(line, out);
    }
    let sent = world.link.output();
    if !sent.is_empty() {
        out.put("-- sent\n");
        put_pieces(sent, piece, out);
    }
}

// Appends bytes in pieces of a length. Those that are the same as the one before are counted.
fn put_pieces(bytes: &[u8], length: usize, out: &mut Said) {
    let mut last = b"".as_slice();
    let mut same = 0u64;
    for piece in bytes.chunks(length.max(1)) {
        if piece == last {
            same = same.saturating_add(1);
        } else {
            put_same(same, out);
            put_output(piece, out);
            same = 0;
        }
        last = piece;
    }
    put_same(same, out);
}

fn put_same(count: u64, out: &mut Said) {
    if count > 0 {
        out.put_number("-- the same again: ", count);
        out.put("\n");
    }
}

// Appends the line that comes before what a device of a number was left with.
fn put_device(device: &str, number: usize, out: &mut Said) {
    out.put_number(device, number);
    out.put("\n");
}

fn put_dialled(world: &MemWorld<'_>, out: &mut Said) {
    for address in world.dial.dialled() {
        out.put("-- dialled ");
        out.put_shown(address.as_slice());
        out.put("\n");
    }
    for link in world.dial.given() {
        out.put("-- given back\n");
        put_output(link.output(), out);
    }
}

fn put_doors(world: &MemWorld<'_>, out: &mut Said) {
    for (number, door) in world.devices.doors.as_slice().iter().enumerate() {
        put_device("-- door ", number, out);
        put_links(door.given(), out);
    }
}

fn put_links(links: &[PausedLink], out: &mut Said) {
    for (number, link) in links.iter().enumerate() {
        put_device("-- link ", number, out);
        put_output(link.link.output(), out);
    }
}

fn put_verdicts(world: &MemWorld<'_>, out: &mut Said) {
    for (number, inbox) in world.devices.inboxes.as_slice().iter().enumerate() {
        out.put_number("-- inbox ", number);
        out.put_debug(": ", inbox.inbox.verdicts());
        out.put("\n");
    }
    for (number, clock) in world.devices.clocks.as_slice().iter().enumerate() {
        out.put_number("-- clock ", number);
        out.put_debug(": ", clock.clock.verdicts());
        out.put("\n");
    }
}

fn put_told(world: &MemWorld<'_>, out: &mut Said) {
    out.put("-- lines of the server\n");
    put_lines(world.opener.opener.lines(), out);
    for (number, inbox) in world.devices.inboxes.as_slice().iter().enumerate() {
        put_device("-- lines of inbox ", number, out);
        put_lines(inbox.inbox.lines(), out);
    }
    for (number, clock) in world.devices.clocks.as_slice().iter().enumerate() {
        put_device("-- lines of clock ", number, out);
        put_lines(clock.clock.lines(), out);
    }
}

fn put_lines(lines: Option<&[Bytes]>, out: &mut Said) {
    match lines {
        Some(lines) => put_each(lines, out),
        None => out.put("lost\n"),
    }
}

fn put_each(lines: &[Bytes], out: &mut Said) {
    for line in lines {
        out.put_shown(line.as_slice());
        out.put("\n");
    }
}
