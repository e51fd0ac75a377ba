//! Times in rising order.
ghost use Rattle.std.specs.Prelude.{◌≡◌, true};
ghost use Rattle.fm_model.specs.Rising.{Rises};
ghost use Rattle.fm_list.specs.Times as spec;

// Whether each time is later than the one before it, and the first later than this.
fn rise_from(last: i128, times: &[i64]) -> bool
    ensures { result ≡ spec.rise_from last times.now }
{
    let mut before = last;
    for time in times {
        let own = i128::from(*time);
        if own <= before {
            return false;
        }
        before = own;
    }
    true
}

// Whether times rise.
pub(crate) fn rise(times: &[i64]) -> bool
    ensures { result ≡ true → Rises times.now }
{
    rise_from(i128::MIN, times)
}
