//! The machine's clock, over clocks in memory.

use crate::hearing::Heard;
use crate::stepped::{put_number_line, word_and_number};
use dev_host::RealClock;
use dev_traits::Clock;
use row_text::Said;
use std::alloc::Global;
use std::cell::Cell;
use std::io::{self, Error, ErrorKind};
use std::rt;
use std::time::Duration;

// How often a clock is asked for its next moment.
const ROUNDS: u32 = 9;

// What two clocks read, in seconds: from 1970 the one that may be set, and the one that only goes on.
type Reading = (u64, u64);

// A machine whose clocks read so, one time after the other, and then can't be read.
#[derive(Drop)]
struct Script<'a> {
    readings: &'a [Reading],
    index: Cell<usize>,
}

impl Script<'_> {
    fn reading(&self) -> io::Result<Reading> {
        match self.readings.get(self.index.get()) {
            Some(reading) => Ok(*reading),
            None => Err(Error::from(ErrorKind::Unsupported)),
        }
    }
}

impl rt::Clock for Script<'_> {
    fn monotonic(&self) -> io::Result<Duration> {
        let (_, steady) = self.reading()?;
        Ok(Duration::from_secs(steady))
    }

    // What is read next is behind it.
    fn since_1970(&self) -> io::Result<Duration> {
        let (wall, _) = self.reading()?;
        self.index.set(self.index.get().saturating_add(1));
        Ok(Duration::from_secs(wall))
    }
}

// Adds the readings that lines `WALL STEADY` say. It is false where a line says something else.
fn put_readings(lines: &str, readings: &mut Vec<Reading>) -> bool {
    for line in lines.lines() {
        if add_reading(line, readings).is_none() {
            return false;
        }
    }
    true
}

fn add_reading(line: &str, readings: &mut Vec<Reading>) -> Option<()> {
    let (wall, steady) = word_and_number(line);
    let steady = steady?;
    let wall = wall.parse::<u64>().ok()?;
    readings.push((wall, steady)).ok()
}

/// Puts the moments of a clock of this number of ticks, whose machine reads as lines say, and what it tells.
pub fn put_moments(alloc: Global, ticks: &str, lines: &str, out: &mut Said) -> bool {
    let Ok(ticks) = ticks.parse::<u32>() else {
        return false;
    };
    let mut readings = Vec::new(alloc);
    let known = put_readings(lines, &mut readings);
    put_by(alloc, ticks, readings.as_slice(), out);
    drop(readings);
    known
}

fn put_by(alloc: Global, ticks: u32, readings: &[Reading], out: &mut Said) {
    let machine = Script {
        readings,
        index: Cell::new(0),
    };
    let mut clock = RealClock::new(machine, Heard::new(alloc), ticks, Duration::from_secs(1));
    put_each(&mut clock, out);
    drop(clock);
}

// Appends each moment behind the lines that were told until it came, and `none` behind the last.
fn put_each(clock: &mut RealClock<Script<'_>, Heard>, out: &mut Said) {
    for _ in 0..ROUNDS {
        let moment = clock.next();
        if let Some(heard) = clock.teller() {
            heard.put_all(out);
        }
        let Some(moment) = moment else {
            out.put("none");
            return;
        };
        put_number_line("", moment, out);
    }
}
