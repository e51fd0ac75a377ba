//! The commands that one thread does alone, `once`, `check` and `load`; the collection that steps leave; how a run
//! ends, and the line that says so.
#![tactic(auto)]

mod checking;
mod collecting;
mod doing;
mod end;
mod loading;
mod put;
mod reading;
mod reporting;
mod service;

pub use checking::check;
pub use collecting::collect;
pub use doing::{once, read_prototype};
pub use end::End;
pub use loading::load;
pub use reporting::{put_pieces, report};
