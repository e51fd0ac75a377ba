//! The prototype: the file that says what the files of a collection look like.
ghost use Rattle.std.specs.Prelude.{◌≡◌};
ghost use Rattle.fm_model.specs.Code.{proto_code};

use crate::site::Site;
use fm_base::{Bytes, List};
use nc_model::{Attr, Dim, HeaderFault, Kind, LayoutFault};

/// A variable that the views show. A variable is `timed` where it lies along the axis; the elements of one that isn't
/// are `fixed`, in row-major order.
#[derive(Drop)]
pub struct ProtoVar {
    pub name: Bytes,
    pub kind: Kind,
    pub dims: List<u32>,
    pub attrs: List<Attr>,
    pub timed: bool,
    pub fixed: Bytes,
}

/// A prototype: its site, the name of its time axis, its dimensions with their lengths, its global attributes, and the
/// variables that the views show. The record dimension has the number of records as its length here.
#[derive(Drop)]
pub struct Proto {
    pub site: Site,
    pub axis: Bytes,
    pub dims: List<Dim>,
    pub attrs: List<Attr>,
    pub vars: List<ProtoVar>,
}

/// Why a file is no prototype. A name is that of a variable or a dimension of the file.
#[derive(Drop)]
pub enum ProtoFault {
    Header(HeaderFault),
    Layout(LayoutFault),
    /// No variable is a time axis.
    NoTimeAxis,
    /// The variable has the axis's dimension elsewhere than first, or twice.
    TimeNotFirst(Bytes),
    /// The name of a dimension or of a variable has another byte than letters, digits, `_` and `-`.
    BadProtoName(Bytes),
    /// A variable has a name under which the views show the runs or the offsets of their rows.
    NameTaken(Bytes),
    /// The record dimension, which isn't the axis's, has no records.
    EmptyDimension(Bytes),
}

impl ProtoFault {
    /// The number by which the fault is reported.
    pub fn code(&self) -> u16
        ensures { result ≡ proto_code self.now }
    {
        match self {
            ProtoFault::Header(fault) => fault.code(),
            ProtoFault::Layout(fault) => fault.code(),
            ProtoFault::NoTimeAxis => 41,
            ProtoFault::TimeNotFirst(_) => 42,
            ProtoFault::BadProtoName(_) => 43,
            ProtoFault::NameTaken(_) => 44,
            ProtoFault::EmptyDimension(_) => 56,
        }
    }
}
