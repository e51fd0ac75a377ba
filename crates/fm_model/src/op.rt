//! What is done to a collection.
ghost use Rattle.std.specs.Prelude.{◌≡◌, IfOk};

use crate::loaded::Loaded;
use fm_base::{Arc, Bytes, NoMemory};
use std::alloc::Global;

/// A change of a collection: a file replaces the one with its name, the runs below a cutoff go, in seconds
/// from the collection's epoch, or the file of a name is taken back.
#[derive(Drop)]
pub enum Op {
    Put(Arc<Loaded>),
    Expire(i64),
    Retract(Bytes),
}

impl Op {
    /// An equal operation. The file of a put is shared and not copied; the name of a retraction is copied.
    pub fn copy(&self, alloc: Global) -> Result<Op, NoMemory>
        ensures { IfOk result (λ op. op ≡ self.now) }
    {
        match self {
            Op::Put(file) => Ok(Op::Put(file.share()?)),
            Op::Expire(cutoff) => Ok(Op::Expire(*cutoff)),
            Op::Retract(name) => Ok(Op::Retract(Bytes::copy_of(alloc, name.as_slice())?)),
        }
    }
}
