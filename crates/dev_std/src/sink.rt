//! A writer as a sink, and which standard stream reports go to.
ghost use Rattle.std.specs.Prelude.{◌≡◌, ◌≤◌, ℕ, length, take, None, OnOk, OnErr};
ghost use Rattle.std.specs.Io.KnownBytes.{Appends};
ghost use Rattle.dev_std.specs.Process as spec;
ghost use Rattle.dev_std.specs.Process.{is_errors, names_sender};
ghost use Rattle.dev_traits.specs.Cause.{HasCause};

use crate::stream::{counted, write_whole};
use dev_traits::{Failed, Sink};
use fm_base::Bytes;
use std::io;
use std::io::{Stderr, Stdout, Write};

/// A sink whose bytes go to a writer. It isn't buffered.
#[derive(Drop)]
pub struct StreamSink<W: Write + Drop> {
    pub output: W,
    faults: u64,
}

impl<W: Write + Drop> StreamSink<W> {
    /// A sink over this. No call has failed.
    pub fn new(output: W) -> StreamSink<W>
        ensures output { result.output ≡ output }
        ensures shown { ⟦<StreamSink<W> as Sink>⟧.shown result ≡ record { held = None; faults = 0 } }
    {
        StreamSink { output, faults: 0 }
    }
}

impl<W: Write + Drop> Sink for StreamSink<W> {
    ghost shown = { λ sink. record { held = None; faults = sink.faults } };

    fn faults(&self) -> u64 {
        self.faults
    }

    fn put(&mut self, bytes: &[u8]) -> Result<(), Failed>
        ensures cause { HasCause self.old.faults self.new.faults result }

        // Where the writer's bytes are known, just these were appended to them.
        ensures bytes { OnOk result
            (Appends (W.contents self.old.output) (W.contents self.new.output) bytes.now) }
        ensures err { OnErr result ((count : ℕ) × (count ≤ length bytes.now)
            × Appends (W.contents self.old.output) (W.contents self.new.output) (take count bytes.now)) }
    {
        counted(&mut self.faults, write_whole(&mut self.output, bytes))
    }
}

/// A standard stream of the process.
#[derive(Clone, Copy)]
pub enum StdStream {
    Output(Stdout),
    Errors(Stderr),
}

/// A sink whose bytes go to a standard stream.
pub type StdSink = StreamSink<StdStream>;

// Whether a word names a command that sends bytes over the link, which is standard output.
#[tactic(auto, unfolding(crate::specs::Process::is_sender))]
pub(crate) fn is_sender(word: &[u8]) -> bool
    ensures { result ≡ spec.is_sender word.now }
{
    word == b"once".as_slice() || word == b"twod".as_slice() || word == b"extract".as_slice()
}

impl StdStream {
    /// The stream of the reports of a run: standard error where the first word is `once`, `twod` or `extract`, whose
    /// bytes go to standard output, and else standard output.
    pub fn of_words(words: &[Bytes], output: Stdout, errors: Stderr) -> StdStream
        ensures { is_errors result ≡ names_sender words.now }
    {
        match words {
            [first, ..] if is_sender(first.as_slice()) => StdStream::Errors(errors),
            _ => StdStream::Output(output),
        }
    }
}

impl Write for StdStream {
    fn write(&mut self, buf: &[u8]) -> io::Result<usize> {
        match self {
            StdStream::Output(output) => output.write(buf),
            StdStream::Errors(errors) => errors.write(buf),
        }
    }

    fn flush(&mut self) -> io::Result<()> {
        Ok(())
    }
}
