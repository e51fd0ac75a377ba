//! Streams, listeners and clocks in memory, which do turn by turn what a row says.
ghost use Rattle.std.specs.Prelude.{◌≤◌, IfOk};

use dev_host::{Listener, Socket};
use std::cell::Cell;
use std::io::{self, Error, ErrorKind, Read, Write};
use std::rt;
use std::time::Duration;

// How many bytes a call takes at most, or how it fails.
pub(crate) type Turn = io::Result<usize>;

// The turn that a word says.
fn turn_of(word: &str) -> Option<Turn> {
    Some(match word {
        "all" => Ok(usize::MAX),
        "one" => Ok(1),
        "none" => Ok(0),
        "later" => Err(Error::from(ErrorKind::WouldBlock)),
        "interrupted" => Err(Error::from(ErrorKind::Interrupted)),
        "aborted" => Err(Error::from(ErrorKind::ConnectionAborted)),
        "reset" => Err(Error::from(ErrorKind::ConnectionReset)),
        "broken" => Err(Error::from(ErrorKind::BrokenPipe)),
        number => Err(Error::from_raw_os_error(number.parse::<i32>().ok()?)),
    })
}

// Adds the turns that words say. It is false where there are none, or a word says something else.
pub(crate) fn put_turns(words: &str, turns: &mut Vec<Turn>) -> bool {
    for word in words.split_whitespace() {
        if add_turn(word, turns).is_none() {
            return false;
        }
    }
    !turns.is_empty()
}

fn add_turn(word: &str, turns: &mut Vec<Turn>) -> Option<()> {
    turns.push(turn_of(word)?).ok()
}

// A stream or a listener whose calls do turns, one after the other. After the last one it is done again.
#[derive(Drop)]
pub(crate) struct Turns<'a> {
    turns: &'a [Turn],
    index: Cell<usize>,
    ended: Cell<Option<usize>>,
}

impl<'a> Turns<'a> {
    pub(crate) fn new(turns: &'a [Turn]) -> Turns<'a> {
        Turns {
            turns,
            index: Cell::new(0),
            ended: Cell::new(None),
        }
    }

    // After how many turns the side that sends was closed.
    pub(crate) fn ended(&self) -> Option<usize> {
        self.ended.get()
    }

    // How many bytes the next call moves, at most `most`.
    fn moved(&self, most: usize) -> io::Result<usize>
        ensures { IfOk result (λ count. count ≤ most) }
    {
        let count = self.next()?;
        Ok(count.min(most))
    }

    fn next(&self) -> Turn {
        let at = self.index.get();
        match self.turns.get(at) {
            Some(turn) => {
                self.index.set(at.saturating_add(1));
                *turn
            }
            None => self.turns.last().copied().unwrap_or(Ok(0)),
        }
    }
}

// An accept that takes bytes gives a connection.
impl Listener for Turns<'_> {
    type Stream = u8;

    fn next_stream(&self) -> io::Result<u8> {
        self.moved(1)?;
        Ok(b'x')
    }
}

impl Read for Turns<'_> {
    fn read(&mut self, buf: &mut [u8]) -> io::Result<usize> {
        let count = self.moved(buf.len())?;
        buf[..count].fill(b'x');
        Ok(count)
    }
}

impl Write for Turns<'_> {
    fn write(&mut self, buf: &[u8]) -> io::Result<usize> {
        self.moved(buf.len())
    }

    fn flush(&mut self) -> io::Result<()> {
        Ok(())
    }
}

impl Socket for Turns<'_> {
    fn send_at_once(&self) -> io::Result<()> {
        Ok(())
    }

    fn end_sending(&self) -> io::Result<()> {
        self.ended.set(Some(self.index.get()));
        Ok(())
    }
}

// A clock that is set to a moment, in milliseconds.
#[derive(Drop)]
pub(crate) struct Hand {
    pub now: Cell<u64>,
}

impl rt::Clock for Hand {
    fn monotonic(&self) -> io::Result<Duration> {
        Ok(Duration::from_millis(self.now.get()))
    }

    fn since_1970(&self) -> io::Result<Duration> {
        Err(Error::from(ErrorKind::Unsupported))
    }
}
