//! The data server: a run over the devices of the machine.
#![tactic(auto)]

use dev_host::host_world;
use dev_std::{StdStream, unread, words};
use srv_run::run_process;
use srv_words::text_asked;
use std::io::IsTerminal;
use std::process::ExitCode;

fn main(rt: HostRuntime) -> ExitCode {
    let Ok(words) = words(&rt) else {
        return unread(&rt);
    };
    match text_asked(rt.alloc(), &words) {
        Ok(Some(text)) => return show(&rt, text.as_str()),
        Ok(None) => {}
        Err(_no_memory) => return unread(&rt),
    }
    let mut world = host_world(rt, &words);
    let (code, reason) = run_process(&rt, rt.alloc(), &words, &mut world);
    if let Some(reason) = reason {
        tell(&rt, world.sink.output, reason.as_str());
    }
    code
}

// Writes a text that the words ask for, and ends as where a line can't be written if it can't be.
fn show(rt: &HostRuntime, text: &str) -> ExitCode {
    match rt.print(text) {
        Ok(()) => ExitCode::from(0),
        Err(_) => ExitCode::from(7),
    }
}

// Says on standard error why the words are bad. Where the line of the run goes there too, it says so to a person alone.
fn tell(rt: &HostRuntime, line: StdStream, reason: &str) {
    let is_told = match line {
        StdStream::Output(_) => true,
        StdStream::Errors(errors) => errors.is_terminal(),
    };
    if is_told {
        let _ = rt.eprintln(reason);
    }
}
