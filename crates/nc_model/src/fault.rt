//! The faults of a netCDF classic file.
ghost use Rattle.std.specs.Prelude.{◌≡◌};
ghost use Rattle.nc_model.specs.Code.{header_fault_code, layout_fault_code};
ghost use Rattle.nc_model.specs.Sound.{format_fault_code};

/// The first fault of a header, with the offset of the first byte of the field at fault, counted from 0.
#[derive(Clone, Copy)]
pub enum HeaderFault {
    /// The file doesn't begin with `CDF` and a fourth byte.
    BadMagic,
    /// The version byte is neither 1 nor 2.
    BadVersion(u8),
    /// The field doesn't lie whole in the file.
    Truncated(u64),
    /// The tag is neither that of the list nor 0.
    BadTag(u64),
    /// The count is over its limit, or not 0 in an absent list.
    BadCount(u64),
    /// The name is empty, isn't UTF-8, or has a zero byte or a slash.
    BadName(u64),
    /// The type isn't one of the six.
    BadType(u64),
    /// The number names no dimension.
    BadDimId(u64),
    /// A second dimension has the length 0.
    TwoRecordDims(u64),
    /// The record dimension stands elsewhere than first.
    RecordNotFirst(u64),
    /// The name stands already in the same list.
    RepeatedName(u64),
    /// The number of records isn't known yet, as while a file is being written.
    Streaming,
}

impl HeaderFault {
    /// The number by which the fault is reported.
    pub fn code(self) -> u16
        ensures { result ≡ header_fault_code self }
    {
        match self {
            HeaderFault::BadMagic => 1,
            HeaderFault::BadVersion(_) => 2,
            HeaderFault::Truncated(_) => 3,
            HeaderFault::BadTag(_) => 4,
            HeaderFault::BadCount(_) => 5,
            HeaderFault::BadName(_) => 6,
            HeaderFault::BadType(_) => 7,
            HeaderFault::BadDimId(_) => 8,
            HeaderFault::TwoRecordDims(_) => 9,
            HeaderFault::RecordNotFirst(_) => 10,
            HeaderFault::RepeatedName(_) => 11,
            HeaderFault::Streaming => 12,
        }
    }
}

/// What is wrong with where the data of a sound header lies. A variable is named by its number from 0.
#[derive(Clone, Copy)]
pub enum LayoutFault {
    /// One record of the variable, or all of it where it has no records, takes more than 2^40 bytes.
    TooLarge(u64),
    /// The last element of the variable ends at `end`, past the file's length.
    DataOutside { var: u64, end: u128, len: u64 },
}

impl LayoutFault {
    /// The number by which the fault is reported.
    pub fn code(self) -> u16
        ensures { result ≡ layout_fault_code self }
    {
        match self {
            LayoutFault::TooLarge(_) => 13,
            LayoutFault::DataOutside { .. } => 14,
        }
    }
}

/// What is wrong with a file: its header, or where its data lies.
#[derive(Clone, Copy)]
pub enum FormatFault {
    OfHeader(HeaderFault),
    OfLayout(LayoutFault),
}

impl FormatFault {
    /// The number by which the fault is reported.
    pub fn code(self) -> u16
        ensures { result ≡ format_fault_code self }
    {
        match self {
            FormatFault::OfHeader(fault) => fault.code(),
            FormatFault::OfLayout(fault) => fault.code(),
        }
    }
}
