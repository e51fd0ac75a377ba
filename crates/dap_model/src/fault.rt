//! What can be wrong with a constraint, by itself and for a dataset.
ghost use Rattle.std.specs.Prelude.{◌≡◌};
ghost use Rattle.dap_model.specs.Code.{ce_code, project_code};

use fm_base::Bytes;

/// What is wrong with the text of a constraint, with an offset in it counted from 0.
#[derive(Clone, Copy)]
pub enum CeFault {
    /// Up to this offset some constraint begins so, and not up to any later offset.
    BadConstraint(u64),
    /// A constraint ends at this offset and `&` stands there: selections aren't taken.
    Selection(u64),
}

impl CeFault {
    /// The number by which the fault is reported.
    pub fn code(&self) -> u16
        ensures { result ≡ ce_code self.now }
    {
        match self {
            CeFault::BadConstraint(_) => 21,
            CeFault::Selection(_) => 22,
        }
    }
}

/// What is wrong with a constraint for the dataset that it is asked of.
#[derive(Drop)]
pub enum ProjectFault {
    /// The path, its names joined by dots, names nothing in the dataset.
    NoSuchVariable(Bytes),
    /// The path is given `got` slabs, and what it names has `rank` dimensions.
    SlabRank { name: Bytes, got: u64, rank: u64 },
    /// The slab of this dimension of the path, counted from 0, doesn't lie within `size`.
    SlabRange { name: Bytes, dim: u64, size: u64 },
    /// An earlier clause gives other slabs to a part of the declaration of this name.
    SlabConflict(Bytes),
}

impl ProjectFault {
    /// The number by which the fault is reported.
    pub fn code(&self) -> u16
        ensures { result ≡ project_code self.now }
    {
        match self {
            ProjectFault::NoSuchVariable(_) => 23,
            ProjectFault::SlabRank { .. } => 24,
            ProjectFault::SlabRange { .. } => 25,
            ProjectFault::SlabConflict(_) => 26,
        }
    }
}
