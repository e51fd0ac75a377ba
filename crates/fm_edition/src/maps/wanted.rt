//! Which row is wanted of a run and its files.

/// The row that many seconds after the run, or at a valid time.
#[derive(Clone, Copy)]
pub(crate) enum Wanted {
    After(i64),
    At(i64),
}
