//! Lists that are shared.
ghost use Rattle.std.specs.Prelude.{◌≡◌, [], IfOk};

use crate::list::{Duplicate, List};
use crate::memory::NoMemory;
use crate::shared::Shared;
use std::alloc::Global;
use std::marker::Model;

/// Values in order, in a block that copies share; an empty list has no block. Contracts see them as a list.
pub struct SharedList<T> {
    block: Option<Shared<List<T>>>,
}

impl<T: Drop> Drop for SharedList<T> {
    fn drop(self) {
        let SharedList { block: _block } = self;
    }
}

impl<T> Model for SharedList<T> {
    ghost use Rattle.std.specs.Prelude.{List as Items, []};
    ghost use Rattle.std.specs.Option.{unwrap_or};

    ghost Value = { Items T };

    ghost view = { λ l. unwrap_or l.block [] };
}

impl<T> SharedList<T> {
    /// A list without values. It does not allocate.
    pub fn empty() -> SharedList<T>
        ensures { result ≡ [] }
    {
        SharedList { block: None }
    }

    /// The values of this list. Returns `NoMemory` if it is out of memory; a list without values takes none.
    pub fn of_list(alloc: Global, list: List<T>) -> Result<SharedList<T>, NoMemory>
    where
        T: Drop,
        ensures { IfOk result (λ shared. shared ≡ list) }
    {
        if list.as_slice().is_empty() {
            return Ok(SharedList { block: None });
        }
        Ok(SharedList {
            block: Some(Shared::new(alloc, list)?),
        })
    }

    /// The values of this list. It does not allocate.
    pub fn as_slice(&self) -> &[T]
        ensures { result.now ≡ self.now }
    {
        match &self.block {
            None => &[],
            Some(list) => list.get().as_slice(),
        }
    }
}

impl<T: Drop> Duplicate for SharedList<T> {
    fn copy(&self) -> Result<SharedList<T>, NoMemory> {
        match &self.block {
            None => Ok(SharedList { block: None }),
            Some(list) => Ok(SharedList {
                block: Some(list.copy()?),
            }),
        }
    }
}
