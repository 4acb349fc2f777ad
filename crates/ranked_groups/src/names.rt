//! The names of groups, by their numbers.
ghost use Rattle.std.specs.Prelude.{◌≡◌, ◌+◌, ◌<◌, ◌≤◌, length, [], ◌∷◌, ◌++◌, None, OnOk, refl};
ghost use Rattle.std.specs.Str.{bytes_eq};
ghost use Rattle.ranked_groups.specs.Groups.{NamesView, number_in};

use bt_base::NoMemory;
use kept_table::{KeyText, Keyed, Table};
use std::alloc::Global;
use std::marker::Model;

/// These bytes as the text of a key.
fn text_of(bytes: &[u8]) -> KeyText
    requires { length bytes.now ≤ 129 }
    ensures { result ≡ bytes.now }
{
    let mut text = KeyText::new();
    for byte in bytes {
        text.push(*byte);
    }
    text
}

/// The name of a group.
#[derive(Drop)]
pub struct GroupName {
    text: KeyText,
}

impl Keyed for GroupName {
    type Key = KeyText;

    ghost has_key = { λ key name. bytes_eq name.text key };

    ghost same_key = { λ name other. bytes_eq name.text other.text };

    ghost key_text = { λ key. key };

    ghost row_text = { λ name. name.text };

    ghost texts_decide = { record { has = λ key name. refl; same = λ name other. refl } };

    fn key_text(key: &KeyText) -> KeyText {
        text_of(key.as_slice())
    }

    fn row_text(&self) -> KeyText {
        text_of(self.text.as_slice())
    }
}

/// The names of groups by their numbers, in the order of adding.
///
/// Contracts see the names, and beside them the room: how many more can be pushed without allocating.
pub struct GroupNames {
    table: Table<GroupName>,
}

impl Drop for GroupNames {
    fn drop(self) {
        let GroupNames { table: _table } = self;
    }
}

impl Model for GroupNames {
    ghost use Rattle.std.specs.Prelude.{◌≡◌, map, Some};
    ghost use Rattle.kept_table.specs.Slots.{rows};
    ghost use Rattle.ranked_groups.specs.Groups.{NamesView};

    ghost Value = { NamesView };

    ghost view = { λ n. record { names = map (λ name. name.text) (rows n.table.slots); room = n.table.room } };

    ghost invariant = { λ n. n.table.slots ≡ map (λ name. Some name) (rows n.table.slots) };
}

impl GroupNames {
    /// No names. It does not allocate.
    pub fn new(alloc: Global) -> GroupNames
        ensures { result.names ≡ [] }
    {
        GroupNames {
            table: Table::new(alloc),
        }
    }

    /// The number of the group with this name. None if there is none. It does not allocate.
    pub fn number_of(&self, name: &[u8]) -> Option<usize>
        requires { length name.now ≤ 129 }
        ensures { result ≡ number_in name.now self.now.names }
    {
        self.table.place_of(&text_of(name))
    }

    /// Adds a new name. It does not allocate.
    pub fn push(&mut self, name: &[u8])
        requires short { length name.now ≤ 129 }
        requires room { 0 < self.old.room }
        requires new { number_in name.now self.old.names ≡ None }
        ensures names { self.new.names ≡ self.old.names ++ name.now ∷ [] }
        ensures room { self.new.room + 1 ≡ self.old.room }
    {
        self.table.push(GroupName {
            text: text_of(name),
        });
    }

    /// Makes room for this many more names. The only error is out of memory.
    pub fn reserve(&mut self, additional: usize) -> Result<(), NoMemory>
        ensures names { self.new.names ≡ self.old.names }
        ensures room { OnOk result (additional ≤ self.new.room) }
    {
        self.table.reserve(additional)
    }
}
