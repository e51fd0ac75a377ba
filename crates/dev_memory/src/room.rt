//! Bytes in room that was made beforehand.
ghost use Rattle.std.specs.Prelude.{◌≡◌, ◌+◌, ◌-◌, ◌≤◌, ◌++◌, [], min, length, take, vec_len, vec_capacity, IfOk};

use fm_base::NoMemory;
use std::alloc::Global;

// Bytes, and room for some more.
#[derive(Drop)]
pub(crate) struct Room {
    pub bytes: Vec<u8>,
}

impl Room {
    // No bytes yet, and room for `room` bytes.
    pub fn new(alloc: Global, room: usize) -> Result<Room, NoMemory>
        ensures bytes { IfOk result (λ made. made.bytes.items ≡ []) }
        ensures len { IfOk result (λ made. vec_len made.bytes ≡ 0) }
        ensures room { IfOk result (λ made. vec_capacity made.bytes ≡ room) }
    {
        let bytes = Vec::with_capacity(alloc, room)?;
        Ok(Room { bytes })
    }

    // Appends what fits of the bytes, and returns how many. It takes no memory.
    pub fn append(&mut self, bytes: &[u8]) -> usize
        ensures count { result ≡ min (vec_capacity self.old.bytes - vec_len self.old.bytes) (length bytes.now) }
        ensures bytes { self.new.bytes.items ≡ self.old.bytes.items ++ take result bytes.now }
        ensures room { vec_capacity self.new.bytes ≡ vec_capacity self.old.bytes }
    {
        let free = self.bytes.capacity().saturating_sub(self.bytes.len());
        let count = free.min(bytes.len());
        let (front, _) = bytes.split_at(count);
        push_all(&mut self.bytes, front);
        count
    }
}

// Appends bytes for which there is room.
fn push_all(out: &mut Vec<u8>, bytes: &[u8])
    requires { vec_len out.old + length bytes.now ≤ vec_capacity out.old }
    ensures bytes { out.new.items ≡ out.old.items ++ bytes.now }
    ensures room { vec_capacity out.new ≡ vec_capacity out.old }
{
    for byte in bytes {
        out.push_reserved(*byte);
    }
}
