//! What can be wrong with a target.
ghost use Rattle.std.specs.Prelude.{◌≡◌};
ghost use Rattle.web_path.specs.Code.{path_fault_code};

/// The first fault of a target.
#[derive(Clone, Copy)]
pub enum PathFault {
    /// At this offset, counted from 0, stands a `%` without two hexadecimal digits after it.
    BadEscape(u64),
    /// The path up to its last `.` is of no view of the collection, or has no `.`.
    NoSuchDataset,
    /// What follows the last `.` of the path is neither `dds`, `das` nor `dods`.
    NoSuchService,
}

impl PathFault {
    /// The number by which the fault is reported.
    pub fn code(self) -> u16
        ensures { result ≡ path_fault_code self }
    {
        match self {
            PathFault::BadEscape(_) => 31,
            PathFault::NoSuchDataset => 32,
            PathFault::NoSuchService => 33,
        }
    }
}
