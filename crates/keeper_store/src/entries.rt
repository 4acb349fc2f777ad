//! Entries of a store: rows of one kind as texts.
ghost use Rattle.std.specs.Prelude.{◌≡◌, [], ◌∷◌, ◌++◌, length, IfOk, OnOk};
ghost use Rattle.std.specs.List.{position};
ghost use Rattle.keeper_store.specs.Lists.{has_key, put_entry, drop_entry};

use bt_base::{Duplicate, NoMemory, Text, duplicates};
use std::alloc::Global;
use std::marker::Model;

/// A row as a text, under its key.
#[derive(Debug)]
pub struct Entry {
    /// The key of the row. No two rows of a kind have the same.
    pub key: Text,
    /// The text of the row.
    pub text: Text,
}

impl Drop for Entry {
    fn drop(self) {
        let Entry {
            key: _key,
            text: _text,
        } = self;
    }
}

impl Duplicate for Entry {
    fn copy(&self) -> Result<Entry, NoMemory> {
        Ok(Entry {
            key: self.key.copy()?,
            text: self.text.copy()?,
        })
    }
}

/// The place of the first entry with the key; None if there is none.
fn place_of(entries: &[Entry], key: &str) -> Option<usize>
    ensures { result ≡ position (has_key key.now) entries.now }
{
    entries.iter().position(|entry| entry.key.as_str() == key)
}

/// Puts the entry in the place of the first with its key, or else at the end.
#[tactic(auto, using(crate::proofs::Places::set_is_put, crate::proofs::Places::push_is_put))]
fn put_entry(entries: &mut Vec<Entry>, entry: Entry) -> Result<(), NoMemory>
    ensures { OnOk result (entries.new.items ≡ put_entry entry entries.old.items) }
{
    match place_of(entries.as_slice(), entry.key.as_str()) {
        Some(place) => entries[place] = entry,
        None => entries.push(entry)?,
    }
    Ok(())
}

/// Drops the first entry with the key, if there is one.
#[tactic(auto, using(crate::proofs::Places::cut_is_drop, crate::proofs::Places::none_is_drop))]
fn drop_entry(entries: &mut Vec<Entry>, key: &str)
    ensures { entries.new.items ≡ drop_entry key.now entries.old.items }
{
    if let Some(place) = place_of(entries.as_slice(), key) {
        drop(entries.remove(place));
    }
}

/// Entries of one kind of rows, in order of adding. Contracts see them as a list.
#[derive(Debug)]
pub struct Entries {
    items: Vec<Entry>,
}

impl Drop for Entries {
    fn drop(self) {
        let Entries { items: _items } = self;
    }
}

impl Model for Entries {
    ghost use Rattle.std.specs.Prelude.{List};
    ghost use Rattle.keeper_store.specs.declared.entries.Entry.{Entry as EntryView};

    ghost Value = { List EntryView };

    ghost view = { λ e. e.items.items };
}

impl Entries {
    /// No entries. It does not allocate.
    pub fn empty(alloc: Global) -> Entries
        ensures { result ≡ [] }
    {
        Entries {
            items: Vec::new(alloc),
        }
    }

    /// Adds an entry at the end, whatever its key. It fails only when out of memory.
    pub fn push(&mut self, entry: Entry) -> Result<(), NoMemory>
        ensures { OnOk result (self.new ≡ self.old ++ entry ∷ []) }
    {
        self.items.push(entry)?;
        Ok(())
    }

    /// Puts an entry: it replaces the first one with its key, or else goes to the end. It fails only when out of memory.
    pub fn put(&mut self, entry: Entry) -> Result<(), NoMemory>
        ensures { OnOk result (self.new ≡ put_entry entry self.old) }
    {
        put_entry(&mut self.items, entry)
    }

    /// Drops the first entry with the key. A key that no entry has changes nothing. It does not allocate.
    pub fn drop_key(&mut self, key: &str)
        ensures { self.new ≡ drop_entry key.now self.old }
    {
        drop_entry(&mut self.items, key);
    }

    /// The entries, in order of adding. It does not allocate.
    pub fn as_slice(&self) -> &[Entry]
        ensures { result.now ≡ self.now }
    {
        self.items.as_slice()
    }
}

impl Duplicate for Entries {
    fn copy(&self) -> Result<Entries, NoMemory> {
        Ok(Entries {
            items: duplicates(*self.items.allocator(), self.items.as_slice())?,
        })
    }
}
