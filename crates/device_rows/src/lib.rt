//! Rows about devices of the machine, over streams, listeners and clocks in memory, over folders, and over its loopback
//! device, its files and its clock.
#![tactic(auto)]

mod calls;
mod clocked;
mod foldered;
mod hearing;
mod keyed;
mod limited;
mod linked;
mod machine;
mod prefixed;
mod shared;
mod stepped;
mod turns;

use row_text::{Answers, Row, Said};
use std::alloc::{AllocError, Global};

/// The machine on which rows run.
#[derive(Drop)]
pub struct Devices {
    pub rt: HostRuntime,
}

impl Answers for Devices {
    fn answer(&self, alloc: Global, row: &Row<'_>, out: &mut Said) -> Result<bool, AllocError> {
        match row.fields.get(1) {
            Some(field) => Ok(put_answer(self.rt, alloc, row, field.key, out)),
            None => Ok(false),
        }
    }
}

// Puts what comes out of a row, by the device that the key behind its name says.
fn put_answer(rt: HostRuntime, alloc: Global, row: &Row<'_>, key: &str, out: &mut Said) -> bool {
    let text = row.value(key).unwrap_or("");
    if row.has_each(&[key]) {
        return put_alone(rt, key, text, out);
    }
    let more = if key == "line" { "limits" } else { "steps" };
    let steps = row.value(more).unwrap_or("");
    match key {
        _ if !row.has_each(&[key, more]) => false,
        "folder" => foldered::put_folder(rt, alloc, text, steps, out),
        _ => put_in_memory(alloc, key, text, steps, out),
    }
}

// Puts what comes out of a text alone.
fn put_alone(rt: HostRuntime, key: &str, text: &str, out: &mut Said) -> bool {
    match key {
        "play" => machine::put_play(rt, text, out),
        "sending" => linked::put_sending(text, out),
        "share" => shared::put_share(text, out),
        _ => false,
    }
}

// Puts what comes out of the steps of a device that isn't the machine's.
fn put_in_memory(alloc: Global, key: &str, text: &str, steps: &str, out: &mut Said) -> bool {
    match key {
        "line" => limited::put_line(alloc, text, steps, out),
        "wheel" => keyed::put_wheel(alloc, text, steps, out),
        "collections" => prefixed::put_collections(alloc, text, steps, out),
        "ticks" => clocked::put_moments(alloc, text, steps, out),
        _ => linked::put_over_turns(alloc, key, text, steps, out),
    }
}
