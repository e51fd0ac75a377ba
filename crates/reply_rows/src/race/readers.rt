//! Readers ask as fast as they can while operations are published.

use super::runs::{NAMES, Runs};
use super::sketch::{Sketch, is_answer};
use super::steps::{STEPS, Step, step_at};
use fm_base::NoMemory;
use fm_model::Op;
use pub_look::Look;
use pub_snap::{Desk, Name, Pass, Share};
use std::alloc::Global;
use std::marker::{Send, Sync};
use std::sync::Wait;
use std::sync::atomic::{AtomicBool, Ordering};
use std::thread::{Threads, for_each_mut, join_mut, yield_now};

// How often a reader asks at most.
const ASKS: u64 = 1_000_000_000;

/// A desk, the share that counts what is published, and the files.
#[derive(Drop)]
pub struct Publisher<'a, N: Name> {
    pub desk: &'a mut Desk<N>,
    pub share: &'a mut Share<N>,
    pub runs: Runs<N>,
}

// Asks until the last revision is seen, each time as `see` does. A reader that is stopped inside a copy holds up the
// writer until its next turn, so it lets others run where it is outside.
fn sees_all<P: Look>(alloc: Global, pass: &mut P, failed: &AtomicBool) -> bool {
    let mut last = 0;
    for _ in 0..ASKS {
        match see(alloc, pass, last) {
            Some(revision) if revision >= STEPS => return true,
            Some(revision) if !failed.load(Ordering::SeqCst) => last = revision,
            _ => return false,
        }
        yield_now();
    }
    false
}

// The revision that a look sees. `None` where memory runs out, the revision is below the last one, or the answer is
// that of another.
fn see<P: Look>(alloc: Global, pass: &mut P, last: u64) -> Option<u64> {
    match pass.ask(alloc, &Sketch) {
        Ok((answer, revision)) if revision >= last && is_answer(revision, answer) => Some(revision),
        _ => None,
    }
}

// Publishes all steps, unless a reader has failed. Every so often it lets readers run, on few processors too.
fn publishes_all<N: Name, R: Wait>(
    rt: &R,
    alloc: Global,
    publisher: &mut Publisher<'_, N>,
    failed: &AtomicBool,
) -> bool {
    for number in 0..STEPS {
        if failed.load(Ordering::SeqCst) || !publish(rt, alloc, publisher, step_at(number)) {
            return false;
        }
        if number % 16 == 0 {
            yield_now();
        }
    }
    true
}

// Publishes a step. Whether it changed what is held.
fn publish<N: Name, R: Wait>(
    rt: &R,
    alloc: Global,
    publisher: &mut Publisher<'_, N>,
    step: Step,
) -> bool {
    match step {
        Step::Put(number) => put(rt, alloc, publisher, number),
        Step::Expire(cutoff) => is_out(publisher.desk.expire(alloc, rt, publisher.share, cutoff)),
        Step::Retract => is_out(publisher.desk.retract(alloc, rt, publisher.share, NAMES[1])),
    }
}

fn put<N: Name, R: Wait>(
    rt: &R,
    alloc: Global,
    publisher: &mut Publisher<'_, N>,
    number: u64,
) -> bool {
    match publisher.runs.file(number) {
        Ok(file) => publisher
            .desk
            .publish(alloc, rt, publisher.share, Op::Put(file))
            .is_ok(),
        Err(NoMemory) => false,
    }
}

// Whether something was taken out.
fn is_out<T: Drop>(answer: Result<Option<T>, NoMemory>) -> bool {
    matches!(answer, Ok(Some(_)))
}

/// Has readers of all passes ask while all steps are published. Whether each saw each revision that it met whole, and
/// the last one.
pub fn race<N: Name + Send + Sync, R: Threads + Wait + Sync>(
    rt: &R,
    alloc: Global,
    publisher: &mut Publisher<'_, N>,
    passes: &mut [Pass<N>],
) -> bool {
    let failed = AtomicBool::new(false);
    let mut reading = || read_side_by_side(rt, alloc, passes, &failed);
    let mut writing = || {
        if !publishes_all(rt, alloc, publisher, &failed) {
            failed.store(true, Ordering::SeqCst);
        }
    };
    join_mut(rt, &mut reading, &mut writing);
    !failed.load(Ordering::SeqCst)
}

fn read_side_by_side<P: Look + Send, R: Threads + Sync>(
    rt: &R,
    alloc: Global,
    passes: &mut [P],
    failed: &AtomicBool,
) {
    let threads = passes.len();
    if threads > 0 {
        for_each_mut(
            rt,
            passes,
            threads,
            &|_: usize, pass: &mut P| {
                if !sees_all(alloc, pass, failed) {
                    failed.store(true, Ordering::SeqCst);
                }
            },
        );
    }
}
