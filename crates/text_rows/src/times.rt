//! Units of time, numbers of seconds, and instants.

use fm_base::{Bytes, NoMemory};
use row_text::Said;
use std::alloc::Global;
use tm_units::{UnitsFault, instant_text, read_instant, read_units};

/// Puts the units of a text, with a calendar or without one.
pub fn put_units(text: &[u8], calendar: Option<&[u8]>, out: &mut Said) {
    match read_units(text, calendar) {
        Ok(units) => {
            out.put_number("", units.per);
            out.put_number(" from ", units.origin);
        }
        Err(fault) => put_fault(fault, out),
    }
}

fn put_fault(fault: UnitsFault, out: &mut Said) {
    out.put_number("refused ", fault.code());
    if let UnitsFault::BadUnits(at) = fault {
        out.put_number(" at ", at);
    }
}

/// Puts a number of seconds, or that there is none.
pub fn put_seconds(seconds: Option<i64>, out: &mut Said) {
    match seconds {
        Some(seconds) => out.put_number("", seconds),
        None => out.put("none"),
    }
}

/// Puts the instant of a text, and how it is written.
pub fn put_instant(alloc: Global, text: &[u8], out: &mut Said) {
    let Some(seconds) = read_instant(text) else {
        return out.put("none");
    };
    out.put_number("", seconds);
    out.put(", written ");
    let mut written = Bytes::new(alloc);
    match instant_text(alloc, seconds, &mut written) {
        Ok(()) => out.put_shown(written.as_slice()),
        Err(NoMemory) => out.run_short(),
    }
}
