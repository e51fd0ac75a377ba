//! Accepts that gave no connection.
ghost use Rattle.std.specs.Prelude.{◌≡◌};
ghost use Rattle.std.specs.IoError.{error_kind, raw_os_error};
ghost use Rattle.dev_net.specs.Accept.{accepting_at, accepting_of};

use std::io::{Error, ErrorKind};

/// What becomes of accepts after one that gave no connection.
#[derive(Clone, Copy)]
pub enum Accepting {
    /// None waits: one is made again once one comes.
    Later,
    /// The peer is gone already, or a signal came: one is made again at once.
    Again,
    /// The system lacks something, as descriptors: one is made again after a while.
    Short,
    /// The socket is none any more: none is made again.
    Failed,
}

/// What becomes of accepts after one that failed so.
pub fn accepting_of(error: &Error) -> Accepting
    ensures { result ≡ accepting_of (error_kind error.now) (raw_os_error error.now) }
{
    match error.kind() {
        ErrorKind::WouldBlock => Accepting::Later,
        ErrorKind::ConnectionAborted | ErrorKind::ConnectionReset | ErrorKind::Interrupted => {
            Accepting::Again
        }
        _ => accepting_at(error.raw_os_error()),
    }
}

// What becomes of accepts after one that failed with this number. EBADF, EINVAL and ENOTSOCK say that there is no
// socket.
fn accepting_at(number: Option<i32>) -> Accepting
    ensures { result ≡ accepting_at number }
{
    match number {
        Some(9 | 22 | 88) => Accepting::Failed,
        _ => Accepting::Short,
    }
}
