//! How a process ends that has no memory for its words.
ghost use Rattle.std.specs.Prelude.{◌≡◌};
ghost use Rattle.std.specs.Process.{exit_status};

use crate::sink::is_sender;
use std::process::ExitCode;
use std::rt::Env;

/// Ends a process that has no memory for its words, with the exit status 4. Its line goes where the report of a run
/// would go: to standard error where the first word names a command that sends bytes over standard output, and else
/// there.
pub fn unread<R: Env + Print + Eprint>(rt: &R) -> ExitCode
    ensures { exit_status result ≡ 4 }
{
    // A longer word doesn't fit, and names no such command.
    let mut first = [0; 7];
    let sends = match rt.arg(1, &mut first) {
        Ok(len) => {
            let (word, _) = first.split_at(len);
            is_sender(word)
        }
        Err(_) => false,
    };
    let _ = if sends {
        rt.eprintln("no memory")
    } else {
        rt.println("no memory")
    };
    ExitCode::from(4)
}
