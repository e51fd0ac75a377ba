//! The six kinds of values of the netCDF classic format.
ghost use Rattle.std.specs.Prelude.{◌≡◌};
ghost use Rattle.nc_model.specs.Kind.{size_of};

/// The external type of a value: `NC_BYTE`, `NC_CHAR`, `NC_SHORT`, `NC_INT`, `NC_FLOAT` or `NC_DOUBLE`.
#[derive(Clone, Copy, PartialEq, Eq)]
pub enum Kind {
    Byte,
    Char,
    Short,
    Int,
    Float,
    Double,
}

impl Kind {
    /// How many bytes one value takes (NetCDF Classic Format Specification, external sizes).
    pub fn size(self) -> u8
        ensures { result ≡ size_of self }
    {
        match self {
            Kind::Byte | Kind::Char => 1,
            Kind::Short => 2,
            Kind::Int | Kind::Float => 4,
            Kind::Double => 8,
        }
    }
}
