//! A value with several owners that contracts see as the value.
ghost use Rattle.std.specs.Prelude.{◌≡◌, IfOk};

use crate::fail::NoMemory;
use std::alloc::Global;
use std::marker::Model;

/// A value that several owners share, in any threads. A clause sees the value.
#[derive(Drop)]
pub struct Arc<T: Drop> {
    inner: std::sync::Arc<T, Global>,
}

impl<T: Drop> Model for Arc<T> {
    ghost Value = { T };

    ghost coded = { T.code };

    ghost view = { λ shared. shared.inner.value };
}

impl<T: Drop> Arc<T> {
    pub fn new(alloc: Global, value: T) -> Result<Arc<T>, NoMemory>
        ensures { IfOk result (λ shared. shared ≡ value) }
    {
        let inner = std::sync::Arc::new(alloc, value)?;
        Ok(Arc { inner })
    }

    pub fn get(&self) -> &T
        ensures { result.now ≡ self.now }
    {
        &self.inner
    }

    /// One more owner of the same value. It fails only where no more owners can be counted.
    pub fn share(&self) -> Result<Arc<T>, NoMemory>
        ensures { IfOk result (λ shared. shared ≡ self.now) }
    {
        let inner = std::sync::Arc::try_clone(&self.inner)?;
        Ok(Arc { inner })
    }
}
