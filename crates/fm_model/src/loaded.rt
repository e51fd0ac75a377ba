//! A file of a collection, and why a file isn't taken.
ghost use Rattle.std.specs.Prelude.{◌≡◌};
ghost use Rattle.fm_model.specs.Code.{load_code};

use fm_base::{Bytes, List};
use nc_model::{HeaderFault, LayoutFault, UnitsFault};

/// Where a variable's data lies in a file: its data at the k-th time begins at `begin + k * step`.
#[derive(Clone, Copy)]
pub struct Slot {
    pub begin: u64,
    pub step: u64,
}

/// A file that was taken: its name, its run, its valid times in the file's order, its bytes, and a slot for each
/// variable of the prototype that lies along the axis, but for the axis itself. Instants are seconds from the
/// collection's epoch.
#[derive(Drop)]
pub struct Loaded {
    pub name: Bytes,
    pub run: i64,
    pub times: List<i64>,
    pub content: Bytes,
    pub slots: List<Slot>,
}

/// Why a file isn't taken. Names are those of the prototype's variables, `k` is the index of a time in the file, and
/// seconds are from the collection's epoch.
#[derive(Drop)]
pub enum LoadFault {
    Header(HeaderFault),
    Layout(LayoutFault),
    Units(UnitsFault),
    /// The variable of the run's time isn't one number, or the file's name has no mark.
    NoRunTime,
    /// The time at this index isn't a whole number of seconds.
    NotWhole(u64),
    /// The time at this index, in seconds from the epoch, lies outside the range of instants.
    TimeRange(u64, i128),
    /// An earlier time is the same.
    TimeRepeated(u64),
    /// The file has no variable of this name.
    MissingVariable(Bytes),
    /// The variable has another kind, other lengths or other dimensions than the prototype's.
    VariableDiffers(Bytes),
    /// A coordinate variable has another byte than the prototype's at this offset among its elements.
    GridDiffers {
        name: Bytes,
        byte: u64,
        proto: u8,
        file: u8,
    },
    /// The axis has no times.
    NoTimes,
    /// The axis has more times than a file may have.
    TooManyTimes(u64),
    /// The run's time isn't a whole number of seconds.
    RunNotWhole,
    /// The run's time lies outside the range of instants.
    RunRange(i128),
    /// The variable has another attribute of this name than the prototype's, or one of the two has none.
    AttributeDiffers {
        name: Bytes,
        attribute: Bytes,
    },
}

impl LoadFault {
    /// The number by which the fault is reported.
    pub fn code(&self) -> u16
        ensures { result ≡ load_code self.now }
    {
        match self {
            LoadFault::Header(fault) => fault.code(),
            LoadFault::Layout(fault) => fault.code(),
            LoadFault::Units(fault) => fault.code(),
            LoadFault::NoRunTime => 45,
            LoadFault::NotWhole(_) => 46,
            LoadFault::TimeRange(_, _) => 47,
            LoadFault::TimeRepeated(_) => 48,
            LoadFault::MissingVariable(_) => 49,
            LoadFault::VariableDiffers(_) => 50,
            LoadFault::GridDiffers { .. } => 51,
            LoadFault::NoTimes => 52,
            LoadFault::TooManyTimes(_) => 53,
            LoadFault::RunNotWhole => 54,
            LoadFault::RunRange(_) => 55,
            LoadFault::AttributeDiffers { .. } => 57,
        }
    }
}
