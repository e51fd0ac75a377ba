//! Bytes that are read from a reader and written to a writer, as a link and a sink do it.
ghost use Rattle.std.specs.Prelude.{◌≡◌, ◌<◌, ◌≤◌, ℕ, length, take, IfOk, OnOk, OnErr};
ghost use Rattle.std.specs.Io.KnownBytes.{Appends};
ghost use Rattle.dev_std.specs.Moving.{Sends, Takes};
ghost use Rattle.dev_traits.specs.Cause.{HasCause};
ghost use Rattle.dev_traits.specs.Link.{SendsWithin, TakesWithin};

use dev_traits::{Failed, Sent, Taken, count_fault};
use std::io::{ErrorKind, Read, Write};

/// Reads the next bytes into the front of `buf`, unless that would wait. A read that a signal interrupts is made again.
#[tactic(auto, using(crate::proofs::StreamLemmas::known))]
pub fn take_now<R: Read>(reader: &mut R, buf: &mut [u8]) -> Result<Taken, Failed>
    requires { 0 < length buf.old }
    ensures within { IfOk result (TakesWithin (length buf.old)) }
    ensures bytes { Takes (R.remaining reader.old) (R.remaining reader.new) buf.new result }
{
    'tries: for _ in 0..u64::MAX {
        match reader.read(buf) {
            Ok(0) => return Ok(Taken::End),
            Ok(count) => return Ok(Taken::Bytes(count)),
            Err(error) => match error.kind() {
                ErrorKind::Interrupted => {}
                ErrorKind::WouldBlock => return Ok(Taken::Later),
                _ => return Err(Failed),
            },
        }
    }
    Err(Failed)
}

/// Writes the first bytes of `bytes`, in order and once, unless that would wait. A writer that takes none has failed. A
/// write that a signal interrupts is made again.
#[tactic(auto, using(crate::proofs::StreamLemmas::known))]
pub fn put_now<W: Write>(writer: &mut W, bytes: &[u8]) -> Result<Sent, Failed>
    ensures within { IfOk result (SendsWithin (length bytes.now)) }
    ensures bytes { Sends (W.contents writer.old) (W.contents writer.new) bytes.now result }
{
    'tries: for _ in 0..u64::MAX {
        match writer.write(bytes) {
            Ok(0) => return Err(Failed),
            Ok(count) => return Ok(Sent::Bytes(count)),
            Err(error) => match error.kind() {
                ErrorKind::Interrupted => {}
                ErrorKind::WouldBlock => return Ok(Sent::Later),
                _ => return Err(Failed),
            },
        }
    }
    Err(Failed)
}

/// Writes all the bytes, in order and once, or the first n of them where the writer fails. One that would wait has
/// failed.
#[tactic(auto, using(crate::proofs::StreamLemmas::whole))]
pub fn write_whole<W: Write>(writer: &mut W, bytes: &[u8]) -> Result<(), Failed>
    ensures ok { OnOk result (Appends (W.contents writer.old) (W.contents writer.new) bytes.now) }
    ensures err { OnErr result ((count : ℕ) × (count ≤ length bytes.now)
        × Appends (W.contents writer.old) (W.contents writer.new) (take count bytes.now)) }
{
    let mut written = 0;
    'whole: while written < bytes.len() {
        let (_, rest) = bytes.split_at(written);
        match put_now(writer, rest)? {
            Sent::Bytes(count) => written += count,
            Sent::Later => return Err(Failed),
        }
    }
    Ok(())
}

/// Counts a call that failed, and returns what it did.
pub fn counted<T>(faults: &mut u64, done: Result<T, Failed>) -> Result<T, Failed>
    ensures same { result ≡ done }
    ensures cause { HasCause faults.old faults.new result }
{
    match done {
        Ok(value) => Ok(value),
        Err(_failed) => Err(count_fault(faults)),
    }
}
