//! The devices of the machine, as the traits of `fm_world`: its files, standard input and output as a link, and a
//! standard stream as a sink. What they do stands in functions over any of std's readers and writers.
//! And what the devices of a server share: lines on what fails and works, and whether taking in is over.
#![tactic(auto)]

mod args;
mod content;
mod event;
mod failing;
mod files;
mod line;
mod link;
mod process;
mod sink;
mod stops;
mod stream;
mod time;
mod trouble;

pub use args::words;
pub use content::read_to_end;
pub use event::{Event, tell_of};
pub use failing::{counted_fault, fail_of, tell_unopened};
pub use files::{RealFiles, read_file, read_open};
pub use line::{Line, Tell};
pub use link::{StdLink, StreamLink};
pub use process::unread;
pub use sink::{StdSink, StdStream, StreamSink};
pub use stops::Stops;
pub use stream::{counted, put_now, take_now, write_whole};
pub use time::present;
pub use trouble::Trouble;
