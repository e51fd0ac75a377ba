//! Plays over the loopback device of the machine.

mod clients;
mod dialled;
mod doors;
mod links;
mod opened;
mod play;
mod timed;
mod ways;

pub(crate) use play::put_play;
