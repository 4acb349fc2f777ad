//! The list of items.
ghost use Rattle.std.specs.Prelude.{◌≡◌, ℕ, ◌+◌, ◌<◌, ◌≤◌, length, [], ◌∷◌, ◌++◌, Some, None, OnOk, vec_len, vec_capacity};
ghost use Rattle.std.specs.List.{All};
ghost use Rattle.first_tree.specs.Ranks.{no_rank};
ghost use Rattle.ranked_groups.specs.Items.{first_of, set_rank};
ghost use Rattle.ranked_groups.specs.Groups.{number_in, AreKept, AreSame, IsEmpty, Takes};

use crate::entry::Entry;
use crate::group::Group;
use crate::names::GroupNames;
use bt_base::NoMemory;
use std::alloc::Global;
use std::marker::Model;

/// The most items: a group and a place are each stored in 32 bits.
const MOST_ITEMS: usize = 4_294_967_295;

/// Items in the order of adding, each with a group and a rank. A group is known by its name, a text of at most 129 bytes, and a
/// rank is from 0 to `first_tree::NO_RANK`, which no bound reaches.
///
/// Contracts see the list of the items, and beside it the room: how many more items can be pushed without allocating.
pub struct RankedGroups {
    names: GroupNames,
    groups: Vec<Group>,
    entries: Vec<Entry>,
    /// Groups without items, for names that are to come.
    spares: Vec<Group>,
    room: usize,
}

impl Drop for RankedGroups {
    fn drop(self) {
        let RankedGroups {
            names: _names,
            groups: _groups,
            entries: _entries,
            spares: _spares,
            room: _room,
        } = self;
    }
}

impl Model for RankedGroups {
    ghost use Rattle.ranked_groups.specs.Items.{GroupsView};
    ghost use Rattle.ranked_groups.specs.Groups.{items_of, with_ranks, IsGrouped, HasRoom};

    ghost Value = { GroupsView };

    ghost view = { λ t. record { items = items_of t.names.names (with_ranks t.groups.items t.entries.items); room = t.room } };

    ghost invariant = { λ t. IsGrouped t.names.names t.groups.items (with_ranks t.groups.items t.entries.items) × HasRoom t.names t.groups t.spares t.entries t.room };
}

/// The number of the group with this name, which is added if there is none. It does not allocate.
fn group_for(
    names: &mut GroupNames,
    groups: &mut Vec<Group>,
    spares: &mut Vec<Group>,
    name: &[u8],
) -> usize
    requires short { length name.now ≤ 129 }
    requires count { vec_len groups.old ≡ length names.old.names }
    requires names { 0 < names.old.room }
    requires groups { vec_len groups.old < vec_capacity groups.old }
    requires some { 0 < vec_len spares.old }
    requires empty { All IsEmpty spares.old.items }
    ensures number { number_in name.now names.new.names ≡ Some result }
    ensures kept { AreKept names.old.names groups.old.items names.new.names groups.new.items }
    ensures names { names.old.room ≤ names.new.room + 1 }
    ensures count { vec_len groups.new ≤ vec_len groups.old + 1 }
    ensures groups { vec_capacity groups.old + vec_len groups.new ≤ vec_capacity groups.new + vec_len groups.old + 1 }
    ensures each { (room : ℕ) → All (Takes room) groups.old.items → All (Takes room) spares.old.items → All (Takes room) groups.new.items }
    ensures spares { vec_len spares.old ≤ vec_len spares.new + 1 }
    ensures empty { All IsEmpty spares.new.items }
    ensures wide { (room : ℕ) → All (Takes room) spares.old.items → All (Takes room) spares.new.items }
{
    match names.number_of(name) {
        Some(number) => number,
        None => {
            let number = groups.len();
            names.push(name);
            let Some(group) = spares.pop() else {
                unreachable!()
            };
            groups.push_reserved(group);
            number
        }
    }
}

/// Makes room for this many more items in each of the groups.
fn reserve_each(groups: &mut Vec<Group>, additional: usize) -> Result<(), NoMemory>
    ensures same { AreSame groups.old.items groups.new.items }
    ensures len { vec_len groups.new ≡ vec_len groups.old }
    ensures capacity { vec_capacity groups.new ≡ vec_capacity groups.old }
    ensures room { OnOk result (All (Takes additional) groups.new.items) }
{
    for number in 0..groups.len() {
        groups[number].reserve(additional)?;
    }
    Ok(())
}

/// Makes room for this many more items in each of the groups without items, and adds such groups until there are `additional`.
fn reserve_spares(alloc: Global, spares: &mut Vec<Group>, additional: usize) -> Result<(), NoMemory>
    requires { All IsEmpty spares.old.items }
    ensures empty { All IsEmpty spares.new.items }
    ensures enough { OnOk result (additional ≤ vec_len spares.new) }
    ensures wide { OnOk result (All (Takes additional) spares.new.items) }
{
    reserve_each(spares, additional)?;
    while spares.len() < additional {
        let mut group = Group::new(alloc)?;
        group.reserve(additional)?;
        spares.push(group)?;
    }
    Ok(())
}

impl RankedGroups {
    /// No items. It does not allocate.
    pub fn new(alloc: Global) -> RankedGroups
        ensures { result.items ≡ [] }
    {
        RankedGroups {
            names: GroupNames::new(alloc),
            groups: Vec::new(alloc),
            entries: Vec::new(alloc),
            spares: Vec::new(alloc),
            room: 0,
        }
    }

    /// The number of items.
    pub fn len(&self) -> usize
        ensures { result ≡ length self.now.items }
    {
        self.entries.len()
    }

    /// Adds an item of the group at the end. It does not allocate.
    pub fn push(&mut self, group: &[u8], rank: u64)
        requires short { length group.now ≤ 129 }
        requires room { 0 < self.old.room }
        ensures items { self.new.items ≡ self.old.items ++ record { group = group.now; rank = rank } ∷ [] }
        ensures room { self.new.room + 1 ≡ self.old.room }
    {
        let number = group_for(&mut self.names, &mut self.groups, &mut self.spares, group);
        let at = self.groups[number].len();
        self.groups[number].push(rank, self.entries.len() as u32);
        self.entries.push_reserved(Entry {
            group: number as u32,
            at: at as u32,
        });
        self.room -= 1;
    }

    /// Sets the rank of the item at this place. It does not allocate.
    pub fn set(&mut self, place: usize, rank: u64)
        requires { place < length self.old.items }
        ensures { self.new ≡ record self.old { items = set_rank self.old.items place rank } }
    {
        let entry = self.entries[place];
        self.groups[entry.group as usize].set(entry.at as usize, rank);
    }

    /// The place of the first item of the group whose rank is at most the bound, which is below `first_tree::NO_RANK`. None if
    /// there is none. It does not allocate.
    pub fn first(&self, group: &[u8], bound: u64) -> Option<usize>
        requires short { length group.now ≤ 129 }
        requires bound { bound < no_rank }
        ensures { result ≡ first_of group.now bound self.now.items }
    {
        match self.names.number_of(group) {
            None => None,
            Some(number) => self.groups[number].first(bound),
        }
    }

    /// Makes room for this many more items, of any groups. It makes room for all of them in each group, and in that many groups
    /// without items, so the memory that it takes grows with the square of `additional`. The only error is out of memory, also
    /// where there would be more than 4,294,967,295 items, and then the items are as before, and there may be no room.
    pub fn reserve(&mut self, additional: usize) -> Result<(), NoMemory>
        ensures items { self.new.items ≡ self.old.items }
        ensures room { OnOk result (additional ≤ self.new.room) }
    {
        if additional > MOST_ITEMS - self.entries.len() {
            return Err(NoMemory);
        }
        let alloc = *self.entries.allocator();
        self.room = 0;
        self.names.reserve(additional)?;
        self.groups.reserve(additional)?;
        self.entries.reserve(additional)?;
        reserve_each(&mut self.groups, additional)?;
        reserve_spares(alloc, &mut self.spares, additional)?;
        self.room = additional;
        Ok(())
    }
}
