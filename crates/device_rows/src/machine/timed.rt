//! Pauses of a play, and how long something lasted.

use crate::stepped::word_and_number;
use row_text::Said;
use std::thread;
use std::time::{Duration, Instant};

// Does a step that takes time: `pause TIME`; `mark` for a moment; `lasted TIME TIME` for whether the time since lies
// between these, in milliseconds. It is false where a line says none.
pub(crate) fn put_time_step(
    rt: &HostRuntime,
    mark: &mut Option<Instant>,
    step: &str,
    out: &mut Said,
) -> bool {
    match step.split_once(' ').unwrap_or((step, "")) {
        ("pause", time) => pause(rt, time).is_some(),
        ("lasted", times) => put_lasted(rt, *mark, times, out).is_some(),
        ("mark", "") => {
            *mark = Instant::now(rt).ok();
            mark.is_some()
        }
        _ => false,
    }
}

fn pause(rt: &HostRuntime, time: &str) -> Option<()> {
    let time = time.parse::<u64>().ok()?;
    thread::sleep(rt, Duration::from_millis(time));
    Some(())
}

fn put_lasted(rt: &HostRuntime, mark: Option<Instant>, times: &str, out: &mut Said) -> Option<()> {
    let (least, most) = word_and_number(times);
    let most = most?;
    let least = least.parse::<u64>().ok()?;
    let lasted = mark?.elapsed(rt).ok()?.as_millis();
    out.put(if least as u128 <= lasted && lasted <= most as u128 {
        "in time\n"
    } else {
        "not in time\n"
    });
    Some(())
}
