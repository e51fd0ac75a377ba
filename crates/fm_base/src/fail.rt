//! Why a call that takes memory gave no value.
ghost use Rattle.fm_base.specs.Answer.{ForFault, Renames};

use std::alloc::{AllocError, AllocFailed};

/// Memory ran out.
#[derive(Clone, Copy, Debug)]
pub struct NoMemory;

impl From<AllocError> for NoMemory {
    fn from(_error: AllocError) -> NoMemory {
        NoMemory
    }
}

impl<T: Drop> From<AllocFailed<T>> for NoMemory {
    fn from(_error: AllocFailed<T>) -> NoMemory {
        NoMemory
    }
}

/// Memory ran out, or the input has a fault.
#[derive(Clone, Copy, Debug, Drop)]
pub enum Fail<E> {
    NoMemory,
    Fault(E),
}

impl<E> From<NoMemory> for Fail<E> {
    ghost use Rattle.std.specs.Prelude.{◌≡◌};
    ghost use Rattle.fm_base.specs.declared.fail.Fail.TheVariants as fails;

    ghost from_gives = { λ _ fail. fail ≡ fails.NoMemory };

    fn from(_error: NoMemory) -> Fail<E> {
        Fail::NoMemory
    }
}

impl<E> From<AllocError> for Fail<E> {
    ghost use Rattle.std.specs.Prelude.{◌≡◌};
    ghost use Rattle.fm_base.specs.declared.fail.Fail.TheVariants as fails;

    ghost from_gives = { λ _ fail. fail ≡ fails.NoMemory };

    fn from(_error: AllocError) -> Fail<E> {
        Fail::NoMemory
    }
}

impl<E, T: Drop> From<AllocFailed<T>> for Fail<E> {
    ghost use Rattle.std.specs.Prelude.{◌≡◌};
    ghost use Rattle.fm_base.specs.declared.fail.Fail.TheVariants as fails;

    ghost from_gives = { λ _ fail. fail ≡ fails.NoMemory };

    fn from(_error: AllocFailed<T>) -> Fail<E> {
        Fail::NoMemory
    }
}

/// The same result, with a fault in the words of the whole chain.
pub fn fault_as<T, D, E, N: FnOnce(D) -> E>(
    found: Result<T, Fail<D>>,
    name: N,
) -> Result<T, Fail<E>>
    requires { ForFault found (N.pre name) }
    ensures { Renames (N.post name) found result }
{
    match found {
        Ok(value) => Ok(value),
        Err(Fail::NoMemory) => Err(Fail::NoMemory),
        Err(Fail::Fault(fault)) => Err(Fail::Fault(name(fault))),
    }
}
