//! Runs the rows of files, each by the call of its subject, which is the name of the file's folder. `docs/ROWS.md`
//! describes their form.
#![tactic(auto)]

mod commands;

use device_rows::Devices;
use file_rows::Files;
use reply_rows::{Collections, run_race};
use row_text::{Answers, Count, File, Row, Said, Text, end, read_inputs, run};
use std::alloc::{AllocError, Global};
use std::io::{self, Eprint, Print};
use std::marker::Sync;
use std::process::ExitCode;
use std::sync::Wait;
use std::thread::Threads;
use text_rows::Texts;

// The answers to rows of no known subject.
struct Unknown;

impl Answers for Unknown {
    fn answer(&self, _alloc: Global, _row: &Row<'_>, _out: &mut Said) -> Result<bool, AllocError> {
        Ok(false)
    }
}

// Runs and counts the rows of a text.
fn run_text<R: Threads + Wait + Eprint + Sync>(
    rt: &R,
    alloc: Global,
    files: &[File],
    devices: &Devices,
    text: &Text,
    count: &mut Count,
) -> io::Result<()> {
    let (path, rows) = (text.path.as_str(), text.text.as_str());
    match text.folder() {
        "commands" => {
            let runs = commands::all_run(rt, alloc, files, rows)?;
            run(rt, alloc, path, rows, &runs, count)
        }
        "texts" => run(rt, alloc, path, rows, &Texts, count),
        "files" => run(rt, alloc, path, rows, &Files { files }, count),
        "replies" => run(rt, alloc, path, rows, &Collections { files }, count),
        "devices" | "machine" => run(rt, alloc, path, rows, devices, count),
        "publisher" => run(rt, alloc, path, rows, &run_race(rt, alloc, files), count),
        _ => run(rt, alloc, path, rows, &Unknown, count),
    }
}

// Runs the rows of all texts, and prints their counts.
fn run_all<R: Threads + Wait + Eprint + Print + Sync>(
    rt: &R,
    alloc: Global,
    devices: &Devices,
    files: &[File],
    texts: &[Text],
) -> io::Result<ExitCode> {
    let mut count = Count::default();
    for text in texts {
        run_text(rt, alloc, files, devices, text, &mut count)?;
    }
    end(rt, count)
}

fn main(rt: HostRuntime) -> io::Result<ExitCode> {
    let inputs = read_inputs(&rt)?;
    let devices = Devices { rt };
    run_all(
        &rt,
        rt.alloc(),
        &devices,
        inputs.files.as_slice(),
        inputs.texts.as_slice(),
    )
}
