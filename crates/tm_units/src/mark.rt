//! Moments in the names of files.
ghost use Rattle.std.specs.Prelude.{◌≡◌};
ghost use Rattle.nc_model.specs.Stamp.{mark_of, stamp_of};

use crate::calendar::{Time, moment_of};
use crate::form::{begins_in_form, number_at};

/// The moment that follows `prefix` in a name as `yyyyMMdd_HHmm`, in UTC, as Unix seconds. What follows it in the name
/// is free. `None` exactly where the name doesn't begin so, or there is no such date or time.
#[tactic(auto, unfolding(nc_model::specs::Stamp::mark_of))]
pub fn read_mark(name: &[u8], prefix: &[u8]) -> Option<i64>
    ensures { result ≡ mark_of name.now prefix.now }
{
    if !name.starts_with(prefix) {
        return None;
    }
    let (_, stamp) = name.split_at(prefix.len());
    read_stamp(stamp)
}

// The moment whose `yyyyMMdd_HHmm` a text begins with.
#[tactic(auto, unfolding(nc_model::specs::Stamp::stamp_of, nc_model::specs::Stamp::stamp_form))]
fn read_stamp(text: &[u8]) -> Option<i64>
    ensures { result ≡ stamp_of text.now }
{
    if !begins_in_form(b"00000000_0000", text) {
        return None;
    }
    let time = Time {
        hour: number_at(text, 9, 2),
        minute: number_at(text, 11, 2),
        second: 0,
    };
    moment_of(
        number_at(text, 0, 4),
        number_at(text, 4, 2),
        number_at(text, 6, 2),
        time,
    )
}
