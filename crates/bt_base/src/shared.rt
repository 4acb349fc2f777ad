//! Values that are shared.
ghost use Rattle.std.specs.Prelude.{◌≡◌, IfOk};

use crate::list::Duplicate;
use crate::memory::NoMemory;
use std::alloc::Global;
use std::marker::Model;
use std::sync::Arc;

/// A value in a block of its own, which its copies share. Contracts see the value.
pub struct Shared<T> {
    inner: Arc<T>,
}

impl<T: Drop> Drop for Shared<T> {
    fn drop(self) {
        let Shared { inner: _inner } = self;
    }
}

impl<T> Model for Shared<T> {
    ghost use Rattle.std.specs.Arc.{arc_value};

    ghost Value = { T };

    ghost view = { λ s. arc_value s.inner };
}

impl<T> Shared<T> {
    /// The value, in a block. Returns `NoMemory` if it is out of memory.
    pub fn new(alloc: Global, value: T) -> Result<Shared<T>, NoMemory>
    where
        T: Drop,
        ensures { IfOk result (λ shared. shared ≡ value) }
    {
        Ok(Shared {
            inner: Arc::new(alloc, value)?,
        })
    }

    /// The value. It does not allocate.
    pub fn get(&self) -> &T
        ensures { result.now ≡ self.now }
    {
        &self.inner
    }
}

impl<T: Drop> Duplicate for Shared<T> {
    fn copy(&self) -> Result<Shared<T>, NoMemory> {
        Ok(Shared {
            inner: Arc::try_clone(&self.inner)?,
        })
    }
}
