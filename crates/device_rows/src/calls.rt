//! Calls of links, and what they and reads give.

use crate::stepped::put_number_line;
use dev_traits::{Failed, Found, Link, Sent, Taken};
use fm_base::Fail;
use row_text::Said;

/// Appends what a call of a link gives: `take` with room for four bytes, `put TEXT`. It is false where a line says
/// none.
pub(crate) fn put_call<L: Link>(link: &mut L, line: &str, out: &mut Said) -> bool {
    match line.split_once(' ').unwrap_or((line, "")) {
        ("take", "") => put_take(link, out),
        ("put", text) => put_text(link, text.as_bytes(), out),
        _ => false,
    }
}

fn put_take<L: Link>(link: &mut L, out: &mut Said) -> bool {
    let mut buf = [0u8; 4];
    let taken = link.take(&mut buf);
    put_taken(taken, &buf, link.faults(), out);
    true
}

/// Appends what a take gave at the front of a buffer; `faults` is how many calls have failed with it.
pub(crate) fn put_taken(taken: Result<Taken, Failed>, buf: &[u8], faults: u64, out: &mut Said) {
    match taken {
        Ok(Taken::Bytes(count)) => put_shown_line(buf.get(..count).unwrap_or(b""), out),
        Ok(Taken::End) => out.put("the end\n"),
        Ok(Taken::Later) => out.put("later\n"),
        Err(Failed) => put_fault(faults, out),
    }
}

fn put_text<L: Link>(link: &mut L, bytes: &[u8], out: &mut Said) -> bool {
    if bytes.is_empty() {
        return false;
    }
    match link.put(bytes) {
        Ok(Sent::Bytes(count)) => put_number_line("", count, out),
        Ok(Sent::Later) => out.put("later\n"),
        Err(Failed) => put_fault(link.faults(), out),
    }
    true
}

/// Appends a line that says how many calls have failed with this one.
pub(crate) fn put_fault(faults: u64, out: &mut Said) {
    put_number_line("fault ", faults, out);
}

/// Appends what was found of a file.
pub(crate) fn put_found(found: &Result<Found, Fail<Failed>>, out: &mut Said) {
    match found {
        Ok(Found::Content(content)) => put_shown_line(content.as_slice(), out),
        Ok(Found::TooLong(len)) => put_number_line("too long: ", *len, out),
        Ok(Found::Absent) => out.put("absent\n"),
        Err(Fail::Fault(_)) => out.put("fault\n"),
        Err(Fail::NoMemory) => out.run_short(),
    }
}

/// Appends a line of bytes, as a person reads them.
pub(crate) fn put_shown_line(bytes: &[u8], out: &mut Said) {
    out.put_shown(bytes);
    out.put("\n");
}
