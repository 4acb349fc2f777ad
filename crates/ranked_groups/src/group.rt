//! The items of one group.
ghost use Rattle.std.specs.Prelude.{◌≡◌, ◌+◌, ◌<◌, ◌≤◌, length, set, [], ◌∷◌, ◌++◌, OnOk, IfOk};
ghost use Rattle.first_tree.specs.Ranks.{no_rank};
ghost use Rattle.ranked_groups.specs.Groups.{GroupView, IsEmpty, place_within};

use bt_base::NoMemory;
use first_tree::FirstTree;
use std::alloc::Global;
use std::marker::Model;

/// The ranks of a group's items, and the numbers of these items in the list of all items, both in the order of adding.
///
/// Contracts see the two lists, and beside them the room: how many more items can be pushed without allocating.
pub struct Group {
    tree: FirstTree,
    places: Vec<u32>,
}

impl Drop for Group {
    fn drop(self) {
        let Group {
            tree: _tree,
            places: _places,
        } = self;
    }
}

impl Model for Group {
    ghost use Rattle.std.specs.Prelude.{◌≡◌, ◌-◌, min, length, vec_len, vec_capacity};
    ghost use Rattle.ranked_groups.specs.Groups.{GroupView};

    ghost Value = { GroupView };

    ghost view = { λ g. record { ranks = g.tree.items; places = g.places.items; room = min g.tree.room (vec_capacity g.places - vec_len g.places) } };

    ghost invariant = { λ g. length g.places.items ≡ length g.tree.items };
}

impl Group {
    /// A group without items.
    pub fn new(alloc: Global) -> Result<Group, NoMemory>
        ensures { IfOk result (λ group. IsEmpty group) }
    {
        let tree = FirstTree::new(alloc)?;
        Ok(Group {
            tree,
            places: Vec::new(alloc),
        })
    }

    /// The number of items.
    pub fn len(&self) -> usize
        ensures { result ≡ length self.now.ranks }
    {
        self.tree.len()
    }

    /// Adds an item at the end. It does not allocate.
    pub fn push(&mut self, rank: u64, place: u32)
        requires { 0 < self.old.room }
        ensures ranks { self.new.ranks ≡ self.old.ranks ++ rank ∷ [] }
        ensures places { self.new.places ≡ self.old.places ++ place ∷ [] }
        ensures room { self.old.room ≤ self.new.room + 1 }
    {
        self.tree.push(rank);
        self.places.push_reserved(place);
    }

    /// Sets the rank of an item. It does not allocate.
    pub fn set(&mut self, at: usize, rank: u64)
        requires { at < length self.old.ranks }
        ensures { self.new ≡ record self.old { ranks = set self.old.ranks at rank } }
    {
        self.tree.set(at, rank);
    }

    /// The place of the first item whose rank is at most the bound. None if there is none. It does not allocate.
    pub fn first(&self, bound: u64) -> Option<usize>
        requires { bound < no_rank }
        ensures { result ≡ place_within bound self.now.ranks self.now.places }
    {
        match self.tree.first(bound) {
            None => None,
            Some(at) => Some(self.places[at] as usize),
        }
    }

    /// Makes room for this many more items. The only error is out of memory.
    pub fn reserve(&mut self, additional: usize) -> Result<(), NoMemory>
        ensures ranks { self.new.ranks ≡ self.old.ranks }
        ensures places { self.new.places ≡ self.old.places }
        ensures room { OnOk result (additional ≤ self.new.room) }
    {
        self.tree.reserve(additional)?;
        self.places.reserve(additional)?;
        Ok(())
    }
}
