//! Values that take memory.
ghost use Rattle.std.specs.Prelude.{◌≡◌, Ok, IfOk};

use fm_base::{Bytes, NoMemory};
use std::alloc::{AllocError, Global};

/// What was made, where memory sufficed for it.
pub(crate) fn made<T: Drop>(value: Result<T, AllocError>) -> Result<T, NoMemory>
    ensures { IfOk result (λ made. value ≡ Ok made) }
{
    Ok(value?)
}

/// Copies of two texts.
pub(crate) fn both(alloc: Global, first: &[u8], second: &[u8]) -> Result<(Bytes, Bytes), NoMemory>
    ensures { IfOk result (λ copies. copies ≡ (first.now, second.now)) }
{
    let first = Bytes::copy_of(alloc, first)?;
    match Bytes::copy_of(alloc, second) {
        Ok(second) => Ok((first, second)),
        Err(NoMemory) => {
            drop(first);
            Err(NoMemory)
        }
    }
}
