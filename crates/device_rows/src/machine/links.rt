//! Links that come through doors.

use crate::calls::{put_call, put_fault, put_taken};
use dev_traits::{Coming, Door, Failed, Link, Sent, Taken};
use row_text::Said;

// How often a link rests at most. A door may say that it may go on where it may not, and the system may take some bytes
// more after it took none.
const RESTS: u32 = 20;

// Does a step of the last door or of the last link: `next`, what the door says beside that links may go on; `ready`,
// the same, or that this link may go on; and what the link does. It is false where a line says none.
pub(crate) fn put_link_step<D: Door>(
    doors: &mut Vec<D>,
    links: &mut Vec<D::L>,
    step: &str,
    out: &mut Said,
) -> bool {
    let Some(door) = doors.last_mut() else {
        return false;
    };
    match step {
        "next" => put_next(door, links, false, out),
        "ready" => put_next(door, links, true, out),
        _ => put_call_step(door, links, step, out),
    }
}

// Does a step of the last link: `rest`; `take on`, which rests until a take gives something; `fill` until a put would
// wait, `fill on` until one fails; and its calls. It is false where a line says none.
fn put_call_step<D: Door>(door: &mut D, links: &mut Vec<D::L>, step: &str, out: &mut Said) -> bool {
    let key = links.len().saturating_sub(1);
    let Some(link) = links.last_mut() else {
        return false;
    };
    match step {
        "rest" => door.rest(key, link),
        "take on" => put_taken_on(door, key, link, out),
        "fill" => put_filled(door, key, link, 0, out),
        "fill on" => put_filled(door, key, link, RESTS, out),
        _ => return put_call(link, step, out),
    }
    true
}

// Appends what a door says next, beside that links may go on. Where `awaits` says so, that the last one may counts.
fn put_next<D: Door>(door: &mut D, links: &mut Vec<D::L>, awaits: bool, out: &mut Said) -> bool {
    for _ in 0..10_000 {
        if let Some(said) = said_next(door, links, awaits) {
            out.put(said);
            return true;
        }
    }
    false
}

// What a door says next, or `None` where it says that a link may go on that isn't awaited.
fn said_next<D: Door>(door: &mut D, links: &mut Vec<D::L>, awaits: bool) -> Option<&'static str> {
    let count = links.len();
    match door.next(count) {
        Ok(Coming::Came(link)) => Some(if links.push(link).is_ok() {
            "came\n"
        } else {
            "no memory\n"
        }),
        Ok(Coming::Ready(key)) if awaits && key.saturating_add(1) == count => Some("ready\n"),
        Ok(Coming::Ready(_)) => None,
        Ok(Coming::Closed) => Some("closed\n"),
        Err(Failed) => Some("fault\n"),
    }
}

// Puts bytes until that would wait. Returns whether it came to that.
fn fills<L: Link>(link: &mut L) -> bool {
    for _ in 0..10_000 {
        match link.put(&[b'x'; 4096]) {
            Ok(Sent::Later) => return true,
            Ok(Sent::Bytes(_)) => {}
            Err(Failed) => return false,
        }
    }
    false
}

// Whether the next that a door says is that a link, which rests, may go on.
fn rests<D: Door>(door: &mut D, key: usize, link: &mut D::L) -> bool {
    door.rest(key, link);
    matches!(door.next(key.saturating_add(1)), Ok(Coming::Ready(found)) if found == key)
}

// Takes until that wouldn't wait, with a rest before each further take.
fn put_taken_on<D: Door>(door: &mut D, key: usize, link: &mut D::L, out: &mut Said) {
    let mut buf = [0u8; 4];
    let mut taken = link.take(&mut buf);
    for _ in 0..RESTS {
        if taken == Ok(Taken::Later) && rests(door, key, link) {
            taken = link.take(&mut buf);
        }
    }
    put_taken(taken, &buf, link.faults(), out);
}

// Puts bytes until that would wait, and again after each of at most `most` rests.
fn put_filled<D: Door>(door: &mut D, key: usize, link: &mut D::L, most: u32, out: &mut Said) {
    let mut waits = fills(link);
    for _ in 0..most {
        waits = waits && rests(door, key, link) && fills(link);
    }
    if waits {
        out.put("later\n");
    } else {
        put_fault(link.faults(), out);
    }
}
