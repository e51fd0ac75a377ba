//! Rows of commands, each run over a world in memory.

use command_rows::{Course, Given, MemWorld, Runs, left, world_of};
use fm_base::NoMemory;
use row_text::{File, Row, rows};
use std::alloc::{AllocError, Global};
use std::marker::Sync;
use std::sync::Wait;
use std::thread::Threads;

// What the run of a row left, or `None` where the row isn't one.
fn ran<R: Threads + Wait + Sync>(
    rt: &R,
    alloc: Global,
    files: &[File],
    row: &Row<'_>,
) -> Result<Option<String>, NoMemory> {
    match Given::read(alloc, files, row) {
        Ok(Some(given)) => {
            let left = ran_in(rt, alloc, &given);
            drop(given);
            left.map(Some)
        }
        Ok(None) => Ok(None),
        Err(NoMemory) => Err(NoMemory),
    }
}

// What the run of a row's words left of a row's world.
fn ran_in<R: Threads + Wait + Sync>(
    rt: &R,
    alloc: Global,
    given: &Given,
) -> Result<String, NoMemory> {
    ran_on(rt, alloc, given, &Course::new(given.order))
}

fn ran_on<R: Threads + Wait + Sync>(
    rt: &R,
    alloc: Global,
    given: &Given,
    course: &Course,
) -> Result<String, NoMemory> {
    let mut world = world_of(alloc, given, course)?;
    let left = ran_over(rt, alloc, given, &mut world);
    drop(world);
    left
}

// What the run of a row's words left of a world.
fn ran_over<R: Threads + Wait + Sync>(
    rt: &R,
    alloc: Global,
    given: &Given,
    world: &mut MemWorld<'_>,
) -> Result<String, NoMemory> {
    let status = srv_run::run(rt, alloc, &given.words, world);
    left(alloc, status, world, given)
}

/// Runs the rows of a text.
pub fn all_run<R: Threads + Wait + Sync>(
    rt: &R,
    alloc: Global,
    files: &[File],
    text: &str,
) -> Result<Runs, AllocError> {
    let mut runs = Runs::new(alloc);
    for row in &rows(alloc, text)? {
        match ran(rt, alloc, files, row) {
            Ok(shown) => runs.add(row.line, shown)?,
            Err(NoMemory) => return Err(AllocError),
        }
    }
    Ok(runs)
}
