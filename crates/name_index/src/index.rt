//! The index of names.
ghost use Rattle.std.specs.Prelude.{◌≡◌, ℕ, List, None, OnOk, OnErr};

use bt_base::NoMemory;
use std::alloc::Global;
use std::collections::BTreeMap;

/// Names, each with a number. Contracts see the index by `number_of`, the number of a name.
#[derive(Debug)]
pub struct NameIndex {
    numbers: BTreeMap<Vec<u8>, usize>,
}

impl Drop for NameIndex {
    fn drop(self) {
        let NameIndex { numbers: _numbers } = self;
    }
}

impl NameIndex {
    ghost use Rattle.name_index.specs.Numbers.{number_of, with_number};

    /// No names. It does not allocate.
    pub fn new(alloc: Global) -> NameIndex
        ensures { (name : List ℕ) → number_of result name ≡ None }
    {
        NameIndex {
            numbers: BTreeMap::new(alloc),
        }
    }

    /// The number of a name, if it has one. It does not allocate.
    pub fn number(&self, name: &[u8]) -> Option<usize>
        ensures { result ≡ number_of self.now name.now }
    {
        self.numbers.get(name).copied()
    }

    /// Sets the number of a name. If memory runs out, nothing changes.
    pub fn put(&mut self, alloc: Global, name: &[u8], number: usize) -> Result<(), NoMemory>
        ensures put { OnOk result ((other : List ℕ) → number_of self.new other ≡ with_number (number_of self.old) name.now number other) }
        ensures unchanged { OnErr result ((other : List ℕ) → number_of self.new other ≡ number_of self.old other) }
    {
        let name = name.to_vec(alloc)?;
        self.numbers.insert(name, number)?;
        Ok(())
    }
}
