//! Why what is sent of a dataset can't be written as one netCDF file.
ghost use Rattle.std.specs.Prelude.{◌≡◌};
ghost use Rattle.nc_writer.specs.Code.{write_code};

use fm_base::Bytes;

/// Why what is sent of a dataset can't be written as one netCDF file.
#[derive(Drop)]
pub enum WriteFault {
    /// The variable of this name is sent twice, with different slabs.
    SlabsDiffer(Bytes),
    /// The dimension of this name stands with two sizes.
    SizesDiffer(Bytes),
    /// The dimension of the characters of a text would have the name of another dimension.
    NameTaken(Bytes),
    /// The file would have `len` bytes, which is over the limit.
    FileTooLong { len: u128, limit: u64 },
}

impl WriteFault {
    /// The number by which the fault is reported.
    pub fn code(&self) -> u16
        ensures { result ≡ write_code self.now }
    {
        match self {
            WriteFault::SlabsDiffer(_) => 71,
            WriteFault::SizesDiffer(_) => 72,
            WriteFault::NameTaken(_) => 73,
            WriteFault::FileTooLong { .. } => 74,
        }
    }
}
