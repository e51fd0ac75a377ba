//! A shared value that is cloned with what holds it.

use fm_base::{Arc, NoMemory};
use std::alloc::{AllocError, Global};
use std::marker::Model;

/// A value that several maps share. A clone is one more owner of it.
#[derive(Drop)]
pub(crate) struct Shared<T: Drop> {
    of: Arc<T>,
}

impl<T: Drop> Model for Shared<T> {
    ghost Value = { T };

    ghost coded = { T.code };

    ghost view = { λ shared. shared.of };
}

impl<T: Drop> Clone for Shared<T> {
    ghost use Rattle.std.specs.Prelude.{◌≡◌};

    ghost is_clone = { λ shared clone. clone ≡ shared };

    fn clone(&self) -> Result<Shared<T>, AllocError> {
        match self.of.share() {
            Ok(of) => Ok(Shared { of }),
            Err(NoMemory) => Err(AllocError),
        }
    }
}

impl<T: Drop> Shared<T> {
    ghost use Rattle.std.specs.Prelude.{◌≡◌, IfOk};

    pub(crate) fn new(alloc: Global, value: T) -> Result<Shared<T>, NoMemory>
        ensures { IfOk result (λ shared. shared ≡ value) }
    {
        Ok(Shared {
            of: Arc::new(alloc, value)?,
        })
    }

    pub(crate) fn get(&self) -> &T
        ensures { result.now ≡ self.now }
    {
        self.of.get()
    }

    // One more owner of the value.
    pub(crate) fn share(&self) -> Result<Arc<T>, NoMemory>
        ensures { IfOk result (λ owner. owner ≡ self.now) }
    {
        self.of.share()
    }
}
