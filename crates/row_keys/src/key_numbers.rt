//! A map from the texts of keys to numbers.
ghost use Rattle.std.specs.Prelude.{◌≡◌, ℕ, List as Items, None, Some, OnOk, if◌then◌else◌};
ghost use Rattle.std.specs.Str.{bytes_eq};
ghost use Rattle.std.specs.HashMap.{get_by};
ghost use Rattle.kept_table.specs.Slots.{has_bytes};
ghost use Rattle.row_keys.specs.Numbers.{number_at, count_at};

use bt_base::{List, NoMemory};
use std::alloc::Global;
use std::collections::HashMap;
use std::marker::Model;

/// Numbers by the texts of keys. Contracts see the list of the texts with their numbers.
pub struct KeyNumbers {
    numbers: HashMap<Vec<u8>, u64>,
}

impl Drop for KeyNumbers {
    fn drop(self) {
        let KeyNumbers { numbers: _numbers } = self;
    }
}

impl Model for KeyNumbers {
    ghost use Rattle.std.specs.Prelude.{ℕ, List};
    ghost use Rattle.row_keys.specs.Numbers.{numbers_of};

    ghost Value = { List (List ℕ × ℕ) };

    ghost view = { λ k. numbers_of k.numbers.entries };
}

/// The number of a text in the map.
fn number_in(numbers: &HashMap<Vec<u8>, u64>, text: &[u8]) -> Option<u64>
    ensures { result ≡ get_by (has_bytes text.now) numbers.now }
{
    numbers.get(text).copied()
}

/// Sets the number of a text in the map.
fn put_in(numbers: &mut HashMap<Vec<u8>, u64>, text: Vec<u8>, number: u64) -> Result<(), NoMemory>
    ensures { OnOk result ((other : Items ℕ) → get_by (has_bytes other) numbers.new ≡ (if bytes_eq text.items other then Some number else get_by (has_bytes other) numbers.old)) }
{
    numbers.insert(text, number)?;
    Ok(())
}

impl KeyNumbers {
    /// No text has a number. It does not allocate.
    pub fn new(alloc: Global) -> KeyNumbers
        ensures { (text : Items ℕ) → number_at result text ≡ None }
    {
        KeyNumbers {
            numbers: HashMap::new(alloc),
        }
    }

    /// The number of a text, or None if it has none. It does not allocate.
    pub fn number(&self, text: &[u8]) -> Option<u64>
        ensures { result ≡ number_at self.now text.now }
    {
        number_in(&self.numbers, text)
    }

    /// The number of a text, or 0 if it has none. It does not allocate.
    pub fn count(&self, text: &[u8]) -> u64
        ensures { result ≡ count_at self.now text.now }
    {
        self.number(text).unwrap_or(0)
    }

    /// Sets the number of a text. The only error is out of memory.
    pub fn put(&mut self, text: List<u8>, number: u64) -> Result<(), NoMemory>
        ensures { OnOk result ((other : Items ℕ) → number_at self.new other ≡ (if bytes_eq text other then Some number else number_at self.old other)) }
    {
        put_in(&mut self.numbers, text.into_vec(), number)?;
        Ok(())
    }
}
