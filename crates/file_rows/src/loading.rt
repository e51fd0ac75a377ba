//! Files of a collection.
ghost use Rattle.std.specs.Prelude.{◌≤◌, length};
ghost use Rattle.fm_model.specs.declared.limit.TheConstants.{MAX_FILE_BYTES};

use super::faults::put_load_fault;
use super::prototypes::{EPOCH, prototype};
use super::put_asked;
use super::question::Question;
use fm_base::{Bytes, Fail, NoMemory};
use fm_load::load;
use fm_model::{Loaded, Proto, Slot};
use row_text::{File, Row, Said, content};
use std::alloc::{AllocError, Global};

/// Puts what comes of a row that loads a file, as `called`, over the prototype `over`. Where it says no such thing,
/// they are the name of the run of 2024-01-01 and `A.nc`; the epoch is the beginning of 2020. It is false where the
/// row isn't known.
pub fn put_load(alloc: Global, files: &[File], row: &Row<'_>, out: &mut Said) -> bool {
    if !row.has_only(&["load", "called", "over", "epoch", "cuts"]) {
        return false;
    }
    let Some(epoch) = epoch_of(row.value("epoch")) else {
        return false;
    };
    match content(alloc, files, row.value("over").unwrap_or("A.nc")) {
        Ok(Some(over)) => put_over(alloc, files, over.as_slice(), epoch, row, out),
        Ok(None) => false,
        Err(AllocError) => {
            out.run_short();
            true
        }
    }
}

// Puts what comes of the file of a row over the prototype that some bytes are; false where they are none.
fn put_over(
    alloc: Global,
    files: &[File],
    over: &[u8],
    epoch: i64,
    row: &Row<'_>,
    out: &mut Said,
) -> bool {
    match prototype(alloc, over, epoch) {
        Ok(proto) => {
            let called = row.value("called").unwrap_or("gfs_20240101_0000.nc");
            let known = put_asked(
                alloc,
                files,
                row,
                "load",
                Question::Load(&proto, called),
                out,
            );
            drop(proto);
            known
        }
        Err(Fail::Fault(fault)) => {
            drop(fault);
            false
        }
        Err(Fail::NoMemory) => {
            out.run_short();
            true
        }
    }
}

fn epoch_of(words: Option<&str>) -> Option<i64> {
    match words {
        Some(words) => words.parse::<i64>().ok(),
        None => Some(EPOCH),
    }
}

/// Appends what a file of a name is over a prototype, or why it isn't taken.
pub fn put_loaded(alloc: Global, proto: &Proto, name: &str, bytes: &[u8], out: &mut Said)
    requires { length bytes.now ≤ MAX_FILE_BYTES }
{
    match Bytes::copy_of(alloc, bytes) {
        Ok(bytes) => put_file(alloc, proto, name, bytes, out),
        Err(NoMemory) => out.run_short(),
    }
}

fn put_file(alloc: Global, proto: &Proto, name: &str, bytes: Bytes, out: &mut Said)
    requires { length bytes ≤ MAX_FILE_BYTES }
{
    match load(alloc, name.as_bytes(), bytes, proto) {
        Ok(file) => {
            put_taken(&file, out);
            drop(file);
        }
        Err(Fail::NoMemory) => out.run_short(),
        Err(Fail::Fault(fault)) => {
            put_load_fault(&fault, out);
            drop(fault);
        }
    }
}

fn put_taken(file: &Loaded, out: &mut Said) {
    out.put_number("run ", file.run);
    out.put(", times");
    put_times(file.times.as_slice(), out);
    put_slots(file.slots.as_slice(), out);
}

// More than eight times are shown as the first and the last, with their number.
fn put_times(times: &[i64], out: &mut Said) {
    match times {
        [first, .., last] if times.len() > 8 => {
            out.put_number(" ", *first);
            out.put_number(" to ", *last);
            out.put_number(", ", times.len());
            out.put(" in all");
        }
        _ => put_each_time(times, out),
    }
}

fn put_each_time(times: &[i64], out: &mut Said) {
    for time in times {
        out.put_number(" ", *time);
    }
}

fn put_slots(slots: &[Slot], out: &mut Said) {
    for slot in slots {
        out.put_number("\ndata from ", slot.begin);
        out.put_number(" each ", slot.step);
    }
}
