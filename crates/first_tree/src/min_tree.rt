//! A tree over a list of ranks, with a leaf for each.
ghost use Rattle.std.specs.Prelude.{◌≡◌, ◌+◌, ◌*◌, ◌<◌, ◌≤◌, ◌-◌, ◌^◌, length, drop, take, set, replicate, [], ◌∷◌, ◌++◌, slice_index, OnOk, IfOk, IfSome};
ghost use Rattle.first_tree.specs.Nodes.{IsTree, IsPower, IsSizeFor};
ghost use Rattle.first_tree.specs.Ranks.{Ranks, no_rank, first_within, first_within_from, least_rank, IsWhole};

use crate::nodes;
use bt_base::NoMemory;
use std::alloc::Global;
use std::marker::Model;

/// The rank that no bound reaches: that of a place whose item is not to be found.
pub const NO_RANK: u64 = u64::MAX;

/// A list of ranks, from 0 to `NO_RANK`, each at its place; places are counted from 0.
///
/// Contracts see the list, and beside it the room: how many more ranks can be pushed without allocating.
#[derive(Debug)]
pub struct MinTree {
    nodes: Vec<u64>,
    size: usize,
    len: usize,
}

impl Drop for MinTree {
    fn drop(self) {
        let MinTree {
            nodes: _nodes,
            size: _size,
            len: _len,
        } = self;
    }
}

impl Model for MinTree {
    ghost use Rattle.std.specs.Prelude.{◌-◌, take, drop};
    ghost use Rattle.first_tree.specs.Ranks.{Ranks, IsWhole};

    ghost Value = { Ranks };

    ghost view = { λ t. record { items = take t.len (drop t.size t.nodes.items); room = t.size - t.len } };

    ghost invariant = { λ t. IsWhole t.nodes.items t.size t.len };
}

/// Sets a leaf, and the nodes above it.
fn set_leaf(nodes: &mut [u64], size: usize, leaf: usize, rank: u64)
    requires length { length nodes.old ≡ size + size }
    requires tree { IsTree nodes.old size }
    requires leaf { leaf < size }
    ensures length { length nodes.new ≡ size + size }
    ensures tree { IsTree nodes.new size }
    ensures leaves { drop size nodes.new ≡ set (drop size nodes.old) leaf rank }
{
    nodes[size + leaf] = rank;
    nodes::repair_path(nodes, size, (size + leaf) / 2);
}

/// The nodes of a tree of the given size over these first leaves, with no rank after them.
fn nodes_over(alloc: Global, size: usize, leaves: &[u64]) -> Result<Vec<u64>, NoMemory>
    requires few { length leaves.now ≤ size }
    requires small { size + size < 2 ^ 64 }
    ensures length { IfOk result (λ nodes. length nodes.items ≡ size + size) }
    ensures tree { IfOk result (λ nodes. IsTree nodes.items size) }
    ensures leaves { IfOk result (λ nodes. drop size nodes.items ≡ leaves.now ++ replicate (size - length leaves.now) no_rank) }
{
    let mut nodes: Vec<u64> = Vec::new(alloc);
    nodes.resize(size, 0)?;
    nodes.extend_from_slice(leaves)?;
    nodes.resize(2 * size, NO_RANK)?;
    nodes::rebuild(&mut nodes, size);
    Ok(nodes)
}

/// The size, doubled until it is at least what is wanted. None if the nodes would be too many.
fn size_for(mut size: usize, wanted: usize) -> Option<usize>
    requires { IsPower size }
    ensures { IsSizeFor wanted result }
{
    while size < wanted {
        if size > usize::MAX / 4 {
            return None;
        }
        size *= 2;
    }
    if size > usize::MAX / 4 {
        return None;
    }
    Some(size)
}

impl MinTree {
    /// A tree without ranks. It allocates two nodes.
    pub fn new(alloc: Global) -> Result<MinTree, NoMemory>
        ensures { IfOk result (λ tree. tree.items ≡ []) }
    {
        let nodes = nodes_over(alloc, 1, &[])?;
        Ok(MinTree {
            nodes,
            size: 1,
            len: 0,
        })
    }

    /// The number of ranks.
    pub fn len(&self) -> usize
        ensures { result ≡ length self.now.items }
    {
        self.len
    }

    /// The rank at this place.
    pub fn get(&self, at: usize) -> u64
        requires { at < length self.now.items }
        ensures { result ≡ slice_index self.now.items at }
    {
        self.nodes[self.size + at]
    }

    /// Sets the rank at this place. It does not allocate.
    pub fn set(&mut self, at: usize, rank: u64)
        requires { at < length self.old.items }
        ensures { self.new ≡ record self.old { items = set self.old.items at rank } }
    {
        set_leaf(&mut self.nodes, self.size, at, rank);
    }

    /// Adds a rank at the end. It does not allocate.
    pub fn push(&mut self, rank: u64)
        requires { 0 < self.old.room }
        ensures items { self.new.items ≡ self.old.items ++ rank ∷ [] }
        ensures room { self.new.room + 1 ≡ self.old.room }
    {
        set_leaf(&mut self.nodes, self.size, self.len, rank);
        self.len += 1;
    }

    /// Makes room for this many more ranks. The only error is out of memory, and then the ranks and the room are as before.
    pub fn reserve(&mut self, additional: usize) -> Result<(), NoMemory>
        ensures items { self.new.items ≡ self.old.items }
        ensures room { OnOk result (additional ≤ self.new.room) }
        ensures kept { self.old.room ≤ self.new.room }
    {
        if additional <= self.size - self.len {
            return Ok(());
        }
        let Some(wanted) = self.len.checked_add(additional) else {
            return Err(NoMemory);
        };
        let Some(size) = size_for(self.size, wanted) else {
            return Err(NoMemory);
        };
        let alloc = *self.nodes.allocator();
        let nodes = nodes_over(alloc, size, &self.nodes[self.size..self.size + self.len])?;
        self.nodes = nodes;
        self.size = size;
        Ok(())
    }

    /// The least of the ranks, and `NO_RANK` if there are none. It takes constant time, and does not allocate.
    pub fn least(&self) -> u64
        ensures { result ≡ least_rank self.now.items }
    {
        self.nodes[1]
    }

    /// The place of the first rank that is at most the bound, which is below `NO_RANK`. None if all ranks are above it.
    /// It does not allocate.
    pub fn first(&self, bound: u64) -> Option<usize>
        requires { bound < no_rank }
        ensures { result ≡ first_within bound self.now.items }
    {
        if self.nodes[1] > bound {
            return None;
        }
        Some(nodes::first_leaf(&self.nodes, self.size, bound))
    }

    /// The place of the first rank at or after this place that is at most the bound, which is below `NO_RANK`. None if all of these are
    /// above it, or if there are none. A place that is found can be counted up. It does not allocate.
    pub fn first_from(&self, from: usize, bound: u64) -> Option<usize>
        requires { bound < no_rank }
        ensures found { result ≡ first_within_from from bound self.now.items }
        ensures next { IfSome result (λ place. place + 1 < 2 ^ 64) }
    {
        nodes::first_from(&self.nodes, self.size, 1, 0, self.size, from, bound)
    }
}
