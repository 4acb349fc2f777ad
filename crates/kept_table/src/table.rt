//! The table.
ghost use Rattle.std.specs.Prelude.{◌≡◌, ◌+◌, ◌*◌, ◌<◌, ◌≤◌, ◌^◌, [], ◌∷◌, ◌++◌, length, map, set, Some, None, Option, IfOk, OnOk, OnErr};
ghost use Rattle.std.specs.Option.{option_copied};
ghost use Rattle.std.specs.List.{find};
ghost use Rattle.kept_table.specs.Lists.{put_row, drop_row, AreAsListed};
ghost use Rattle.kept_table.specs.Slots.{TableView, AreApart, place_of, has_text, holds, slot_at, rows, is_sparse, closed_up, put_slot, clear_slot, IsKept, HasRoom};

use crate::key_text::KeyText;
use crate::keyed::Keyed;
use crate::rows::Rows;
use bt_base::{Duplicate, NoMemory, Shared};
use hash_index::{HashIndex, Places, text_hash};
use std::alloc::Global;
use std::marker::Model;
use std::mem;

/// Rows in slots by place, in the order of adding. The slot of a removed row stays free until `reserve` closes up the places. The
/// texts of keys are not stored: the index has a hash of 32 bits for each place, and a row is found by comparing the text with those
/// of the rows that have its hash.
///
/// Contracts see the slots, and beside them the room: how many more rows can be pushed without allocating.
#[derive(Drop)]
pub struct Table<R: Keyed> {
    slots: Vec<Option<R>>,
    /// How many slots have a row.
    row_count: usize,
    /// The hashes of the rows' texts by their places. The hash of a removed row stays.
    index: HashIndex,
    room: usize,
}

impl<R: Keyed> Model for Table<R> {
    ghost use Rattle.std.specs.Prelude.{◌≡◌, length};
    ghost use Rattle.kept_table.specs.Slots.{TableView, IsKept, HasRoom, rows};

    ghost Value = { TableView R };

    ghost view = { λ t. record { slots = t.slots.items; room = t.room } };

    ghost invariant = { λ t. IsKept R.row_text t.slots.items t.index.hashes × HasRoom t.slots t.index t.room × (t.row_count ≡ length (rows t.slots.items)) };
}

impl<R: Keyed> Table<R> {
    /// A table without rows. It does not allocate.
    pub fn new(alloc: Global) -> Table<R>
        ensures { result.slots ≡ [] }
    {
        Table {
            slots: Vec::new(alloc),
            row_count: 0,
            index: HashIndex::new(alloc),
            room: 0,
        }
    }

    /// The slots by place: a row, or None if its row was removed. The rows in them are in the order of adding.
    pub fn slots(&self) -> &[Option<R>]
        ensures slots { result.now ≡ self.now.slots }
        ensures apart { AreApart R.row_text self.now.slots }
        ensures small { length self.now.slots < 2 ^ 63 }
    {
        self.slots.as_slice()
    }

    /// The number of places, with the free ones.
    pub fn place_count(&self) -> usize
        ensures { result ≡ length self.now.slots }
    {
        self.slots.len()
    }

    /// The number of rows.
    pub fn row_count(&self) -> usize
        ensures { result ≡ length (rows self.now.slots) }
    {
        self.row_count
    }

    /// Whether more than half of the places are free.
    pub fn is_sparse(&self) -> bool
        ensures { result ≡ is_sparse self.now.slots }
    {
        2 * self.row_count < self.slots.len()
    }

    /// The row at this place. None if the place is free, or is not one of the table's.
    pub fn row_at(&self, place: usize) -> Option<&R>
        ensures { option_copied result ≡ slot_at self.now.slots place }
    {
        match self.slots.get(place) {
            None => None,
            Some(slot) => slot.as_ref(),
        }
    }

    /// The place of the row whose key has this text. None if no row's has it. It does not allocate.
    pub fn place_of_text(&self, text: &KeyText) -> Option<usize>
        ensures { result ≡ place_of (has_text R.row_text text.now) self.now.slots }
    {
        let places = self.index.places(text_hash(text.as_slice()));
        self.place_among(places, text)
    }

    /// The place of the row with this key. None if no row has it. It does not allocate.
    pub fn place_of(&self, key: &R::Key) -> Option<usize>
        ensures { result ≡ place_of (R.has_key key.now) self.now.slots }
    {
        self.place_of_text(&R::key_text(key))
    }

    /// The place of the row with the same key as this row. None if no row has it. It does not allocate.
    pub fn place_of_row(&self, row: &R) -> Option<usize>
        ensures { result ≡ place_of (λ old. R.same_key old row.now) self.now.slots }
    {
        self.place_of_text(&row.row_text())
    }

    /// The row with this key. None if no row has it. It does not allocate.
    pub fn find(&self, key: &R::Key) -> Option<&R>
        ensures { option_copied result ≡ find (R.has_key key.now) (rows self.now.slots) }
    {
        match self.place_of(key) {
            None => None,
            Some(place) => self.row_at(place),
        }
    }

    /// The row whose key has this text. None if no row's has it. It does not allocate.
    pub fn find_by_text(&self, text: &KeyText) -> Option<&R>
        ensures { option_copied result ≡ find (has_text R.row_text text.now) (rows self.now.slots) }
    {
        match self.place_of_text(text) {
            None => None,
            Some(place) => self.row_at(place),
        }
    }

    /// Adds a row with a new key at the end. It cannot run out of memory.
    pub fn push(&mut self, row: R)
        requires room { 0 < self.old.room }
        requires new { place_of (λ old. R.same_key old row) self.old.slots ≡ None }
        ensures slots { self.new.slots ≡ self.old.slots ++ Some row ∷ [] }
        ensures room { self.new.room + 1 ≡ self.old.room }
    {
        let key = row.row_text();
        self.index.add(text_hash(key.as_slice()));
        self.slots.push_reserved(Some(row));
        self.row_count += 1;
        self.room -= 1;
    }

    /// Puts the row at the place of the one with the same key. It does not allocate.
    pub fn replace(&mut self, place: usize, row: R)
        requires { place_of (λ old. R.same_key old row) self.old.slots ≡ Some place }
        ensures { self.new ≡ record self.old { slots = set self.old.slots place (Some row) } }
    {
        self.slots[place] = Some(row);
    }

    /// Removes the row with this key from its place. It does not allocate.
    pub fn remove(&mut self, place: usize, key: &R::Key)
        requires { place_of (R.has_key key.now) self.old.slots ≡ Some place }
        ensures { self.new ≡ record self.old { slots = set self.old.slots place None } }
    {
        self.slots[place] = None;
        self.row_count -= 1;
    }

    /// Puts the row at the place of the one with the same key, or else at the end. It cannot run out of memory.
    pub fn put(&mut self, row: R)
        requires { 0 < self.old.room }
        ensures rows { rows self.new.slots ≡ put_row (λ old. R.same_key old row) row (rows self.old.slots) }
        ensures slots { self.new.slots ≡ put_slot (λ old. R.same_key old row) row self.old.slots }
        ensures room { self.old.room ≤ self.new.room + 1 }
    {
        match self.place_of_row(&row) {
            Some(place) => self.replace(place, row),
            None => self.push(row),
        }
    }

    /// Removes the row with this key, if there is one. It does not allocate.
    pub fn drop_by_key(&mut self, key: &R::Key)
        ensures rows { rows self.new.slots ≡ drop_row (R.has_key key.now) (rows self.old.slots) }
        ensures slots { self.new.slots ≡ clear_slot (R.has_key key.now) self.old.slots }
        ensures room { self.new.room ≡ self.old.room }
    {
        match self.place_of(key) {
            Some(place) => self.remove(place, key),
            None => {}
        }
    }

    /// Makes room for this many more rows. If more than half of the places are free, the rows are closed up first, in their
    /// order: their places change, and the list of the rows does not. The only error is out of memory, and then all places are
    /// as before.
    pub fn reserve(&mut self, additional: usize) -> Result<(), NoMemory>
        ensures rows { rows self.new.slots ≡ rows self.old.slots }
        ensures places { OnOk result (self.new.slots ≡ closed_up self.old.slots) }
        ensures room { OnOk result (additional ≤ self.new.room) }
        ensures unchanged { OnErr result (self.new.slots ≡ self.old.slots) }
    {
        if self.is_sparse() {
            self.close_up(additional)
        } else {
            self.add_room(additional)
        }
    }

    /// Makes room for this many more rows. The places stay. The only error is out of memory, and then there may be no room.
    pub fn add_room(&mut self, additional: usize) -> Result<(), NoMemory>
        ensures slots { self.new.slots ≡ self.old.slots }
        ensures room { OnOk result (additional ≤ self.new.room) }
    {
        // Where a reserve fails, the index is not known to have as much room as before.
        self.room = 0;
        self.index.reserve(additional)?;
        self.slots.reserve(additional)?;
        self.room = additional;
        Ok(())
    }

    /// Closes up the free places, and makes room for this many more rows: the places of rows change, and the list of the rows does
    /// not. The only error is out of memory, and then all places are as before.
    pub fn close_up(&mut self, additional: usize) -> Result<(), NoMemory>
        ensures rows { rows self.new.slots ≡ rows self.old.slots }
        ensures slots { OnOk result (self.new.slots ≡ map (λ row. Some row) (rows self.old.slots)) }
        ensures room { OnOk result (additional ≤ self.new.room) }
        ensures unchanged { OnErr result (self.new.slots ≡ self.old.slots) }
    {
        let alloc = *self.slots.allocator();
        let Some(wanted) = self.row_count.checked_add(additional) else {
            return Err(NoMemory);
        };
        let mut closed = Table::new(alloc);
        closed.add_room(wanted)?;
        let slots = mem::replace(&mut self.slots, Vec::new(alloc));
        *self = with_rows_of(closed, slots);
        Ok(())
    }
}

impl<R: Keyed> Table<R> {
    /// The first of these places that has a row whose key has this text.
    fn place_among(&self, places: Places<'_>, text: &KeyText) -> Option<usize>
        ensures { result ≡ find (λ at. holds (has_text R.row_text text.now) (slot_at self.now.slots at)) places.entry }
    {
        for place in places {
            if self.has_text_at(place, text) {
                return Some(place);
            }
        }
        None
    }

    /// Whether this place has a row whose key has this text.
    fn has_text_at(&self, place: usize, text: &KeyText) -> bool
        ensures { result ≡ holds (has_text R.row_text text.now) (slot_at self.now.slots place) }
    {
        match self.row_at(place) {
            None => false,
            Some(row) => row.row_text().as_slice() == text.as_slice(),
        }
    }
}

impl<R: Keyed + Duplicate> Table<R> {
    /// A copy of the rows, in a table without free places and without room. The only error is out of memory.
    pub fn copy(&self) -> Result<Table<R>, NoMemory>
        ensures { IfOk result (λ copy. rows copy.slots ≡ rows self.now.slots) }
    {
        let alloc = *self.slots.allocator();
        let slots = copied_slots(alloc, &self.slots)?;
        let mut copy = Table::new(alloc);
        copy.add_room(self.row_count)?;
        Ok(with_rows_of(copy, slots))
    }
}

impl<R: Keyed> Table<Shared<R>> {
    /// The rows, in the order of adding.
    pub fn rows(&self) -> Rows<'_, R>
        ensures { result ≡ rows self.now.slots }
    {
        Rows::of(&self.slots)
    }

    /// The row at this place. None if the place is free, or is not one of the table's.
    pub fn shared_at(&self, place: usize) -> Option<&R>
        ensures { option_copied result ≡ slot_at self.now.slots place }
    {
        match self.row_at(place) {
            None => None,
            Some(row) => Some(row.get()),
        }
    }

    /// The row with this key. None if no row has it. It does not allocate.
    pub fn find_shared(&self, key: &R::Key) -> Option<&R>
        ensures { option_copied result ≡ find (R.has_key key.now) (rows self.now.slots) }
    {
        match self.find(key) {
            None => None,
            Some(row) => Some(row.get()),
        }
    }

    /// The row whose key has this text. None if no row's has it. It does not allocate.
    pub fn find_shared_by_text(&self, text: &KeyText) -> Option<&R>
        ensures { option_copied result ≡ find (has_text R.row_text text.now) (rows self.now.slots) }
    {
        match self.find_by_text(text) {
            None => None,
            Some(row) => Some(row.get()),
        }
    }
}

/// Copies of the slots.
fn copied_slots<R: Duplicate>(
    alloc: Global,
    slots: &[Option<R>],
) -> Result<Vec<Option<R>>, NoMemory>
    ensures { IfOk result (λ copies. copies.items ≡ slots.now) }
{
    let mut copies = Vec::with_capacity(alloc, slots.len())?;
    for slot in slots {
        copies.push(copied_slot(slot)?)?;
    }
    Ok(copies)
}

/// A copy of the slot.
fn copied_slot<R: Duplicate>(slot: &Option<R>) -> Result<Option<R>, NoMemory>
    ensures { IfOk result (λ copy. copy ≡ slot.now) }
{
    match slot {
        None => Ok(None),
        Some(row) => Ok(Some(row.copy()?)),
    }
}

/// The table without rows, with the rows of these slots in their order. It does not allocate.
fn with_rows_of<R: Keyed>(table: Table<R>, slots: Vec<Option<R>>) -> Table<R>
    requires empty { table.slots ≡ [] }
    requires room { length (rows slots.items) ≤ table.room }
    requires apart { AreApart R.row_text slots.items }
    ensures slots { result.slots ≡ map (λ row. Some row) (rows slots.items) }
    ensures room { result.room + length (rows slots.items) ≡ table.room }
{
    let mut table = table;
    for slot in slots {
        match slot {
            Some(row) => table.push(row),
            None => {}
        }
    }
    table
}

/// A law of places: changes of the slots are puts and drops in the list of rows, and a place that was found has the row that a
/// search of the list finds.
pub fn places_are_lists<R: Keyed>()
    ensures { AreAsListed R }
{}
