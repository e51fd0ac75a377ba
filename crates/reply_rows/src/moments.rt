//! Instants of a row, which a collection has in seconds from its epoch.

use fm_base::Bytes;
use row_text::Said;
use std::alloc::Global;
use tm_units::{instant_text, read_instant};

// The beginning of 2020, in Unix seconds.
const EPOCH: i64 = 1_577_836_800;

/// The seconds from the epoch to the instant `YYYY-MM-DDThh:mm:ssZ` of a word.
pub fn read_moment(word: &str) -> Option<i64> {
    read_instant(word.as_bytes())?.checked_sub(EPOCH)
}

/// The number of a word.
pub fn read_number(word: &str) -> Option<i64> {
    word.parse::<i64>().ok()
}

/// Puts the instant `moment` seconds from the epoch. `None` where it lies outside the years 0 to 9999, or memory runs
/// out.
pub fn put_moment(alloc: Global, moment: i64, out: &mut Said) -> Option<()> {
    let instant = EPOCH.saturating_add(moment);
    if instant < -62_167_219_200 || instant > 253_402_300_799 {
        return None;
    }
    let mut text = Bytes::new(alloc);
    instant_text(alloc, instant, &mut text).ok()?;
    out.put_shown(text.as_slice());
    Some(())
}
