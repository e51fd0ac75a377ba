//! What the files are looked up by.

/// The run of a file, a valid time that it has, or the code of its name.
#[derive(Clone, Copy)]
pub enum By {
    Run,
    Time,
    Name,
}
