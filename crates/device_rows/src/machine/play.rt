//! A play, line by line.

use super::clients::put_client_step;
use super::dialled::{Dialled, put_dial_step};
use super::timed::put_time_step;
use super::ways::Ways;
use crate::stepped::{Stepped, put_steps};
use row_text::Said;
use std::alloc::Global;
use std::net::{SocketAddr, TcpStream};
use std::time::Instant;

/// Puts what comes out of the lines of a play.
pub(crate) fn put_play(rt: HostRuntime, lines: &str, out: &mut Said) -> bool {
    let alloc = rt.alloc();
    let play = Play {
        ways: Ways::new(rt),
        peers: Peers::new(rt),
    };
    put_steps(Lines { alloc, play }, lines, out)
}

// What goes on by lines, each of which has steps between `;`, and a number of times before them.
#[derive(Drop)]
struct Lines<P> {
    alloc: Global,
    play: P,
}

impl<P: Stepped> Stepped for Lines<P> {
    // Does the steps of a line so often as it says.
    fn put_step(&mut self, line: &str, out: &mut Said) -> bool {
        let mut before = Said::new(self.alloc);
        let known = put_rounds(self.alloc, &mut self.play, line, &mut before, out);
        drop(before);
        known
    }
}

// How often the steps of a line are done, and the steps: `COUNT times STEP; STEP` says how often, other lines are done
// once.
fn rounds_of(line: &str) -> (u32, &str) {
    match line.split_once(" times ") {
        Some((count, steps)) => (count.parse::<u32>().unwrap_or(0), steps),
        None => (1, line),
    }
}

fn put_rounds<P: Stepped>(
    alloc: Global,
    play: &mut P,
    line: &str,
    before: &mut Said,
    out: &mut Said,
) -> bool {
    let (count, steps) = rounds_of(line);
    for _ in 0..count {
        if !put_next_round(alloc, play, steps, before, out) {
            return false;
        }
    }
    count > 0
}

// Does the steps. What they give is left out where the round before gave the same.
fn put_next_round<P: Stepped>(
    alloc: Global,
    play: &mut P,
    steps: &str,
    before: &mut Said,
    out: &mut Said,
) -> bool {
    let mut said = Said::new(alloc);
    let known = put_round(play, steps, &mut said);
    if said.as_str() != before.as_str() {
        before.clear();
        before.put(said.as_str());
        out.put(said.as_str());
    }
    drop(said);
    known
}

fn put_round<P: Stepped>(play: &mut P, steps: &str, out: &mut Said) -> bool {
    for step in steps.split(';') {
        if !play.put_step(step.trim(), out) {
            return false;
        }
    }
    true
}

// Doors, and who connects to them.
#[derive(Drop)]
struct Play {
    ways: Ways,
    peers: Peers,
}

impl Stepped for Play {
    fn put_step(&mut self, step: &str, out: &mut Said) -> bool {
        self.ways.put_step(step, out) || self.peers.put_step(self.ways.address(), step, out)
    }
}

// The clients of doors, the link that was dialled, and the moment that was marked.
#[derive(Drop)]
struct Peers {
    rt: HostRuntime,
    clients: Vec<TcpStream>,
    dialled: Option<Dialled>,
    mark: Option<Instant>,
}

impl Peers {
    fn new(rt: HostRuntime) -> Peers {
        Peers {
            rt,
            clients: Vec::new(rt.alloc()),
            dialled: None,
            mark: None,
        }
    }

    // Does a step of a client or a dialer of the door at an address, or one that takes time. It is false where there is
    // none.
    fn put_step(&mut self, address: Option<SocketAddr>, step: &str, out: &mut Said) -> bool {
        put_client_step(&self.rt, address, &mut self.clients, step, out)
            || put_dial_step(&self.rt, address, &mut self.dialled, step, out)
            || put_time_step(&self.rt, &mut self.mark, step, out)
    }
}
