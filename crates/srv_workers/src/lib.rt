//! Workers over one desk or several: a run opens the desks, has a worker for each device, all at once, and closes the
//! desks once all of them have ended.
#![tactic(auto)]

mod ahead;
mod behind;
mod blanks;
mod both;
mod close;
mod course;
mod desks;
mod eyes;
mod given;
mod joining;
mod last;
mod many;
mod next;
mod one;
mod outcome;
mod own;
mod parts;
mod places;
mod room;
mod run;
mod several;
mod shift;
mod slots;
mod staff;
mod threads;
mod work;
mod worker;
mod workers;

pub use outcome::{Outcome, Outcomes};
pub use several::run_several;
pub use threads::can_start;
pub use workers::run_workers;
