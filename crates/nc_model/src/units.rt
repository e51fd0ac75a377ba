//! Units of time, and the faults of a text of units.
ghost use Rattle.std.specs.Prelude.{◌≡◌};
ghost use Rattle.nc_model.specs.Code.{units_fault_code};

/// A number `x` in these units stands for the moment `origin + per * x`, in Unix seconds.
#[derive(Clone, Copy)]
pub struct Units {
    pub per: u32,
    pub origin: i64,
}

/// The fault of a `units` attribute with the `calendar` attribute beside it, if there is one.
#[derive(Clone, Copy)]
pub enum UnitsFault {
    /// The text isn't `UNIT since DATE TIME ZONE`. The offset is that of the first byte at fault, counted from 0.
    BadUnits(u64),
    /// The calendar isn't the Gregorian one.
    Calendar,
    /// The date lies before 1582-10-15, where the mixed calendar has Julian dates.
    MixedCalendar,
}

impl UnitsFault {
    /// The number by which the fault is reported.
    pub fn code(self) -> u16
        ensures { result ≡ units_fault_code self }
    {
        match self {
            UnitsFault::BadUnits(_) => 15,
            UnitsFault::Calendar => 16,
            UnitsFault::MixedCalendar => 17,
        }
    }
}
