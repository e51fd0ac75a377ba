//! Offsets of valid times from runs.
ghost use Rattle.std.specs.Prelude.{◌≡◌};
ghost use Rattle.fm_model.specs.Cell.{has_least_offset};

/// Whether a valid time lies at least the least offset after a run, where one is given. All are in seconds.
pub fn keeps_least_offset(least: Option<i64>, run: i64, valid: i64) -> bool
    ensures { result ≡ has_least_offset least run valid }
{
    match least {
        Some(seconds) => i128::from(seconds) <= i128::from(valid) - i128::from(run),
        None => true,
    }
}
