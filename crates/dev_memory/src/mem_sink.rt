//! A sink in memory.
ghost use Rattle.std.specs.Prelude.{◌≡◌, [], Some, IfOk};

use crate::calls::Calls;
use crate::room::Room;
use dev_traits::{Failed, Sink};
use fm_base::{List, NoMemory};
use std::alloc::Global;

/// A sink in memory, with room that was made beforehand. What doesn't fit whole fails, and its front that fits is
/// appended.
#[derive(Drop)]
pub struct MemSink {
    all: Room,
    calls: Calls,
}

impl MemSink {
    ghost use Rattle.dev_memory.specs.Memory.{sink_room, sink_failing};

    /// An empty sink with room for `room` bytes. The calls with these numbers, counted from 1, fail and append
    /// nothing.
    pub fn new(alloc: Global, room: usize, failing: List<u64>) -> Result<MemSink, NoMemory>
        ensures shown { IfOk result (λ sink.
            ⟦<MemSink as Sink>⟧.shown sink ≡ record { held = Some []; faults = 0 }) }
        ensures room { IfOk result (λ sink. sink_room sink ≡ room) }
        ensures failing { IfOk result (λ sink. sink_failing sink ≡ failing) }
    {
        let all = Room::new(alloc, room)?;
        Ok(MemSink {
            all,
            calls: Calls::new(failing),
        })
    }

    /// All the bytes that were appended.
    pub fn bytes(&self) -> &[u8]
        ensures { Some result.now ≡ (⟦<MemSink as Sink>⟧.shown self.now).held }
    {
        self.all.bytes.as_slice()
    }
}

impl Sink for MemSink {
    ghost shown = { λ sink. record { held = Some sink.all.bytes.items; faults = sink.calls.faults } };

    fn faults(&self) -> u64 {
        self.calls.faults
    }

    fn put(&mut self, bytes: &[u8]) -> Result<(), Failed> {
        if self.calls.due() {
            return Err(self.calls.fail());
        }
        if self.all.append(bytes) < bytes.len() {
            return Err(self.calls.fail());
        }
        Ok(())
    }
}
