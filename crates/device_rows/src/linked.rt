//! Links and accepts over streams and listeners in memory: when their time is over, and how links end.

use crate::calls::put_call;
use crate::stepped::{Stepped, put_number_line, put_steps, word_and_number};
use crate::turns::{Hand, Turn, Turns, put_turns};
use dev_host::{Ending, Entry, Pace, Patience, PolledLink, Sending};
use dev_traits::Failed;
use row_text::Said;
use std::alloc::Global;
use std::cell::Cell;

/// Puts what the steps do to the device that a key names, and that does the turns which words say.
pub fn put_over_turns(alloc: Global, key: &str, words: &str, steps: &str, out: &mut Said) -> bool {
    let mut turns = Vec::new(alloc);
    let known = put_turns(words, &mut turns) && put_done(key, turns.as_slice(), steps, out);
    drop(turns);
    known
}

// Appends what the steps do. It is false where one is unknown.
fn put_done(key: &str, turns: &[Turn], steps: &str, out: &mut Said) -> bool {
    match key {
        "link" => put_link(turns, steps, out),
        "ending" => put_ending(turns, steps, out),
        "accepts" => put_steps(Entry::new(Turns::new(turns)), steps, out),
        _ => false,
    }
}

// A link over a stream, and the clock that it reads.
#[derive(Drop)]
struct Timed<'a> {
    clock: &'a Hand,
    link: PolledLink<Turns<'a>, &'a Hand>,
}

// Appends what calls of a link do at some moments, in milliseconds after it came, a line for each; `hurry` has it wait
// for no further request. It is false where a line says none.
fn put_link(turns: &[Turn], steps: &str, out: &mut Said) -> bool {
    let clock = &Hand { now: Cell::new(0) };
    let link = PolledLink::new(clock, Turns::new(turns), 0, Patience::of_server());
    put_steps(Timed { clock, link }, steps, out)
}

impl Stepped for Timed<'_> {
    fn put_step(&mut self, line: &str, out: &mut Said) -> bool {
        let (call, Some(now)) = word_and_number(line) else {
            return false;
        };
        self.clock.now.set(now);
        if call == "hurry" {
            self.link.hurry();
            return true;
        }
        put_call(&mut self.link, call, out)
    }
}

// Appends what the end of a connection does: after how many calls the side that sends was closed, and then whether it
// is over at some moments. It is false where a line says none.
fn put_ending(turns: &[Turn], steps: &str, out: &mut Said) -> bool {
    let ending = Ending::new(Turns::new(turns), 0);
    match ending.stream.ended() {
        Some(calls) => put_number_line("calls before the close: ", calls, out),
        None => out.put("not closed\n"),
    }
    put_steps(ending, steps, out)
}

impl Stepped for Ending<Turns<'_>> {
    fn put_step(&mut self, line: &str, out: &mut Said) -> bool {
        let ("drop", Some(now)) = word_and_number(line) else {
            return false;
        };
        out.put(if self.drop_more(now) {
            "over\n"
        } else {
            "goes on\n"
        });
        true
    }
}

// What accepts do: `accept` at a moment, `wake` where a connection may have come, `due` for when the next is made.
impl Stepped for Entry<Turns<'_>> {
    fn put_step(&mut self, line: &str, out: &mut Said) -> bool {
        match word_and_number(line) {
            ("accept", Some(now)) => put_next(self.next_stream(now), out),
            ("wake", None) => self.wake(),
            ("due", None) => put_due(self.due(), self.has_failed(), out),
            _ => return false,
        }
        true
    }
}

fn put_due(due: Option<u64>, failed: bool, out: &mut Said) {
    match due {
        Some(moment) => put_number_line("due at ", moment, out),
        None if failed => out.put("never\n"),
        None => out.put("once one comes\n"),
    }
}

fn put_next(next: Result<Option<u8>, Failed>, out: &mut Said) {
    out.put(match next {
        Ok(Some(_stream)) => "a connection\n",
        Ok(None) => "none\n",
        Err(Failed) => "fault\n",
    });
}

/// Puts the moment at which the time of a link is over that began to send at the moment 1,000, and sent this number of
/// bytes, the last at 59,000.
pub fn put_sending(sent: &str, out: &mut Said) -> bool {
    let Ok(sent) = sent.parse::<u64>() else {
        return false;
    };
    let pace = Pace {
        since: 59_000,
        sending: Some(Sending { began: 1_000, sent }),
    };
    out.put_number("", Patience::of_server().due(pace));
    true
}
