//! A reader and a writer as a link.
ghost use Rattle.std.specs.Prelude.{⊤, ◌≡◌, ◌<◌, length, None, IfOk};
ghost use Rattle.dev_std.specs.Moving.{Sends, Takes};
ghost use Rattle.dev_traits.specs.Cause.{HasCause};
ghost use Rattle.dev_traits.specs.Link.{SendsNow, SendsWithin, TakesNow, TakesWithin};

use crate::stream::{put_now, take_now};
use dev_traits::{Failed, Link, Sent, Taken, count_fault};
use std::io::{Read, Stdin, Stdout, Write};

/// A link whose peer writes to `input` and reads `output`. Neither is buffered: a put is one write. It blocks: a stream
/// that would wait and doesn't has failed.
#[derive(Drop)]
pub struct StreamLink<R: Read + Drop, W: Write + Drop> {
    pub input: R,
    pub output: W,
    faults: u64,
}

/// A link whose peer writes to standard input and reads standard output.
pub type StdLink = StreamLink<Stdin, Stdout>;

impl<R: Read + Drop, W: Write + Drop> StreamLink<R, W> {
    /// A link over these. No call has failed.
    pub fn new(input: R, output: W) -> StreamLink<R, W>
        ensures input { result.input ≡ input }
        ensures output { result.output ≡ output }
        ensures shown { ⟦<StreamLink<R, W> as Link>⟧.shown result ≡ record { held = None; faults = 0 } }
    {
        StreamLink {
            input,
            output,
            faults: 0,
        }
    }
}

impl<R: Read + Drop, W: Write + Drop> Link for StreamLink<R, W> {
    ghost shown = { λ link. record { held = None; faults = link.faults } };

    ghost blocks = { ⊤ };

    fn faults(&self) -> u64 {
        self.faults
    }

    fn take(&mut self, buf: &mut [u8]) -> Result<Taken, Failed>
        requires { 0 < length buf.old }
        ensures within { IfOk result (TakesWithin (length buf.old)) }
        ensures at_once { IfOk result TakesNow }
        ensures cause { HasCause self.old.faults self.new.faults result }

        // Where the reader's bytes are known, the next ones were taken, or none is left. Nothing was written.
        ensures bytes { Takes (R.remaining self.old.input) (R.remaining self.new.input) buf.new result }
        ensures output { self.new.output ≡ self.old.output }
    {
        match take_now(&mut self.input, buf) {
            Ok(Taken::Bytes(count)) => Ok(Taken::Bytes(count)),
            Ok(Taken::End) => Ok(Taken::End),
            Ok(Taken::Later) | Err(Failed) => Err(count_fault(&mut self.faults)),
        }
    }

    fn put(&mut self, bytes: &[u8]) -> Result<Sent, Failed>
        ensures within { IfOk result (SendsWithin (length bytes.now)) }
        ensures at_once { IfOk result SendsNow }
        ensures cause { HasCause self.old.faults self.new.faults result }

        // Where the writer's bytes are known, just these were appended to them. Nothing was read.
        ensures bytes { Sends (W.contents self.old.output) (W.contents self.new.output) bytes.now result }
        ensures input { self.new.input ≡ self.old.input }
    {
        match put_now(&mut self.output, bytes) {
            Ok(Sent::Bytes(count)) => Ok(Sent::Bytes(count)),
            Ok(Sent::Later) | Err(Failed) => Err(count_fault(&mut self.faults)),
        }
    }
}
