//! A line that tells how many connections there is room for.

use crate::hearing::Heard;
use dev_host::{most_descriptors, tell_with_room};
use row_text::Said;
use std::alloc::Global;

/// Puts a line of two parts, with a blank between, as it is told where a process has these limits, in the system's
/// text, and nothing is open.
pub fn put_line(alloc: Global, line: &str, limits: &str, out: &mut Said) -> bool {
    let Some((word, rest)) = line.split_once(' ') else {
        return false;
    };
    let heard = Heard::new(alloc);
    let blank: &[u8] = b" ";
    let parts = [word.as_bytes(), blank, rest.as_bytes()];
    tell_with_room(&heard, &parts, most_descriptors(limits));
    heard.put_all(out);
    drop(heard);
    out.pop();
    true
}
