//! The words that the process was called with.
ghost use Rattle.std.specs.Prelude.{◌≤◌, IfOk, IfSome, length};

use fm_base::{Bytes, List, NoMemory};
use std::env::FillError;
use std::rt::Env;

// The rooms in which a word is tried, one after the other.
const ROOMS: [usize; 6] = [256, 4_096, 65_536, 1_048_576, 16_777_216, 268_435_456];

// The length of the word at an index, which then stands at the front of the room; None where there is none.
fn word_in<R: Env>(rt: &R, index: usize, room: &mut Vec<u8>) -> Result<Option<usize>, NoMemory>
    ensures { IfOk result (λ found. IfSome found (λ len. len ≤ length room.new.items)) }
{
    for size in ROOMS {
        room.resize(size, 0)?;
        match rt.arg(index, room.as_mut_slice()) {
            Ok(len) => return Ok(Some(len)),
            Err(FillError::NotPresent) => return Ok(None),
            Err(FillError::TooLong) => {}
        }
    }
    Err(NoMemory)
}

/// The words after the program's name, byte for byte: a word need not be text.
pub fn words<R: Env + AllocGlobal>(rt: &R) -> Result<List<Bytes>, NoMemory> {
    let mut words = List::new(rt.alloc());
    let mut room = Vec::new(rt.alloc());
    for index in 1..usize::MAX {
        match word_in(rt, index, &mut room)? {
            Some(len) => words.push(Bytes::copy_of(rt.alloc(), &room[..len])?)?,
            None => break,
        }
    }
    Ok(words)
}
