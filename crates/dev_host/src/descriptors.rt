//! How many connections the limit of descriptors allows.

use dev_folder::count_names;
use dev_std::read_file;
use dev_traits::Found;
use std::alloc::Global;
use std::{rt, str};

// Where the system says the limits of a process, and which descriptors it has.
const LIMITS: &[u8] = b"/proc/self/limits";

const OPEN: &str = "/proc/self/fd";

// The names in each folder that are its own and that of the folder around it.
const DOTS: u64 = 2;

// The most bytes of the text of the limits.
const LONGEST: u64 = 65_536;

/// The most descriptors that a process may have, in the system's text of its limits. `None` where it says no number, as
/// where there is no limit.
pub fn most_descriptors(limits: &str) -> Option<u64> {
    for line in limits.lines() {
        if let Some(rest) = line.strip_prefix("Max open files") {
            return first_number(rest);
        }
    }
    None
}

// The number that is the first word of a text.
fn first_number(text: &str) -> Option<u64> {
    text.split_whitespace().next()?.parse::<u64>().ok()
}

/// How many connections can be open at once beside what is open now: one for each descriptor that is left. `None` where
/// the system doesn't say it.
pub fn connections_left<R: rt::Files>(rt: &R, alloc: Global) -> Option<u64> {
    let most = most_of_process(rt, alloc)?;
    let open = open_descriptors(rt)?;
    Some(most.saturating_sub(open))
}

// The most descriptors that this process may have.
fn most_of_process<R: rt::Files>(rt: &R, alloc: Global) -> Option<u64> {
    let Ok(Found::Content(limits)) = read_file(rt, alloc, LIMITS, LONGEST) else {
        return None;
    };
    let most = most_descriptors(str::from_utf8(limits.as_slice()).unwrap_or(""));
    drop(limits);
    most
}

// How many descriptors are open. That of the listing is one of them: a file that arrives needs one.
fn open_descriptors<R: rt::Files>(rt: &R) -> Option<u64> {
    let mut folder = rt.open_dir(OPEN).ok()?;
    let names = count_names(&mut folder);
    drop(folder);
    Some(names.ok()?.saturating_sub(DOTS))
}
