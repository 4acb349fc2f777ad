//! Sums by the numbers of nodes.
ghost use Rattle.std.specs.Prelude.{◌≡◌, ◌+◌, ◌<◌, ◌≤◌, ◌^◌, ℕ, [], true, nat_eq, is_some, Some, None, if◌then◌else◌, OnOk};
ghost use Rattle.std.specs.Option.{unwrap_or};
ghost use Rattle.std.specs.HashMap.{get, spare};
ghost use Rattle.run_index.specs.Held.{SumsView, sum_at, kept_sum, if_node, HasKeys};

use bt_base::NoMemory;
use std::alloc::Global;
use std::collections::HashMap;
use std::marker::Model;

/// A sum for each node that was added.
///
/// Contracts see the sums by the numbers of the nodes, and beside them the room: how many more nodes can be added without allocating.
pub struct NodeSums {
    sums: HashMap<u64, u128>,
    room: usize,
}

impl Drop for NodeSums {
    fn drop(self) {
        let NodeSums {
            sums: _sums,
            room: _room,
        } = self;
    }
}

impl Model for NodeSums {
    ghost use Rattle.std.specs.Prelude.{◌≤◌};
    ghost use Rattle.std.specs.HashMap.{spare};
    ghost use Rattle.run_index.specs.Held.{SumsView};

    ghost Value = { SumsView };

    ghost view = { λ s. record { sums = s.sums.entries; room = s.room } };

    ghost invariant = { λ s. s.room ≤ spare s.sums };
}

/// Puts the sum of a node that has one. It does not allocate.
fn put_sum(sums: &mut HashMap<u64, u128>, node: u64, sum: u128)
    requires { is_some (get nat_eq sums.old node) ≡ true }
    ensures sums { (other : ℕ) → get nat_eq sums.new other ≡ (if nat_eq node other then Some sum else get nat_eq sums.old other) }
    ensures room { spare sums.new ≡ spare sums.old }
{
    match sums.get_mut(&node) {
        Some(old) => *old = sum,
        None => unreachable!(),
    }
}

/// Adds a node with the sum 0. It does not allocate.
fn insert_sum(sums: &mut HashMap<u64, u128>, node: u64)
    requires { 0 < spare sums.old }
    ensures sums { (other : ℕ) → get nat_eq sums.new other ≡ (if nat_eq node other then Some 0 else get nat_eq sums.old other) }
    ensures room { spare sums.old ≤ spare sums.new + 1 }
{
    match sums.insert(node, 0) {
        Ok(_) => {}
        Err(_) => unreachable!(),
    }
}

impl NodeSums {
    /// No nodes. It does not allocate.
    pub fn new(alloc: Global) -> NodeSums
        ensures { result.sums ≡ [] }
    {
        NodeSums {
            sums: HashMap::new(alloc),
            room: 0,
        }
    }

    /// Makes room for this many more nodes. The only error is out of memory.
    pub fn reserve(&mut self, additional: usize) -> Result<(), NoMemory>
        ensures sums { (node : ℕ) → sum_at self.new node ≡ sum_at self.old node }
        ensures room { OnOk result (additional ≤ self.new.room) }
    {
        self.sums.reserve(additional)?;
        self.room = additional;
        Ok(())
    }

    /// The sum of a node, or 0 if it was not added.
    pub fn sum(&self, node: u64) -> u128
        ensures { result ≡ kept_sum self.now node }
    {
        self.sums.get(&node).copied().unwrap_or(0)
    }

    /// Adds a node with the sum 0, unless it was added. It does not allocate.
    pub fn add_node(&mut self, node: u64)
        requires { 0 < self.old.room }
        ensures sums { (other : ℕ) → kept_sum self.new other ≡ kept_sum self.old other }
        ensures keys { HasKeys self.old self.new }
        ensures key { is_some (sum_at self.new node) ≡ true }
        ensures room { self.old.room ≤ self.new.room + 1 }
    {
        if self.sums.get(&node).is_none() {
            insert_sum(&mut self.sums, node);
            self.room -= 1;
        }
    }

    /// Adds slots to the sum of a node that was added. It does not allocate.
    pub fn add(&mut self, node: u64, slots: u8)
        requires key { is_some (sum_at self.old node) ≡ true }
        requires small { kept_sum self.old node + slots < 2 ^ 128 }
        ensures sums { (other : ℕ) → kept_sum self.new other ≡ kept_sum self.old other + if_node node slots other }
        ensures keys { HasKeys self.old self.new }
        ensures room { self.new.room ≡ self.old.room }
    {
        let sum = self.sum(node) + u128::from(slots);
        put_sum(&mut self.sums, node, sum);
    }

    /// Takes slots from the sum of a node that was added. It does not allocate.
    pub fn take(&mut self, node: u64, slots: u8)
        requires key { is_some (sum_at self.old node) ≡ true }
        requires enough { slots ≤ kept_sum self.old node }
        ensures sums { (other : ℕ) → kept_sum self.new other + if_node node slots other ≡ kept_sum self.old other }
        ensures keys { HasKeys self.old self.new }
        ensures room { self.new.room ≡ self.old.room }
    {
        let sum = self.sum(node) - u128::from(slots);
        put_sum(&mut self.sums, node, sum);
    }
}
