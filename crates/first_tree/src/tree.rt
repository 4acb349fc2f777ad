//! A list of ranks in blocks, with a tree over the least rank of each block.
ghost use Rattle.std.specs.Prelude.{◌≡◌, ◌+◌, ◌*◌, ◌<◌, ◌≤◌, ◌^◌, length, set, [], ◌∷◌, ◌++◌, slice_index, OnOk, IfOk, IfSome};
ghost use Rattle.first_tree.specs.Blocks.{IsInBlocks, IsFirstIn};
ghost use Rattle.first_tree.specs.Ranks.{Ranks, no_rank, first_within, first_within_from, least_rank};

use crate::blocks::{BLOCK, block_end, first_in, first_in_block, least_in_block};
use crate::min_tree::MinTree;
use bt_base::NoMemory;
use std::alloc::Global;
use std::marker::Model;

/// A list of ranks, from 0 to `NO_RANK`, each at its place; places are counted from 0.
///
/// A tree has the least rank of each block of 16 ranks, so that in a long list it takes about one to two bytes for each rank.
///
/// Contracts see the list, and beside it the room: how many more ranks can be pushed without allocating.
#[derive(Debug)]
pub struct FirstTree {
    ranks: Vec<u64>,
    /// The least rank of each block.
    blocks: MinTree,
    room: usize,
}

impl Drop for FirstTree {
    fn drop(self) {
        let FirstTree {
            ranks: _ranks,
            blocks: _blocks,
            room: _room,
        } = self;
    }
}

impl Model for FirstTree {
    ghost use Rattle.first_tree.specs.Ranks.{Ranks};
    ghost use Rattle.first_tree.specs.Blocks.{IsInBlocks, HasRoom};

    ghost Value = { Ranks };

    ghost view = { λ t. record { items = t.ranks.items; room = t.room } };

    ghost invariant = { λ t. IsInBlocks t.ranks.items t.blocks.items × HasRoom t.ranks t.blocks t.room };
}

/// The place of the first rank in this block or a later one that is at most the bound.
fn first_in_later(ranks: &[u64], blocks: &MinTree, block: usize, bound: u64) -> Option<usize>
    requires bound { bound < no_rank }
    requires blocks { IsInBlocks ranks.now blocks.now.items }
    ensures { IsFirstIn ranks.now (16 * block) (length ranks.now) bound result }
{
    match blocks.first_from(block, bound) {
        None => None,
        Some(later) => first_in_block(ranks, later, bound),
    }
}

impl FirstTree {
    /// A tree without ranks. It allocates two nodes.
    pub fn new(alloc: Global) -> Result<FirstTree, NoMemory>
        ensures { IfOk result (λ tree. tree.items ≡ []) }
    {
        let blocks = MinTree::new(alloc)?;
        Ok(FirstTree {
            ranks: Vec::new(alloc),
            blocks,
            room: 0,
        })
    }

    /// The number of ranks.
    pub fn len(&self) -> usize
        ensures { result ≡ length self.now.items }
    {
        self.ranks.len()
    }

    /// The rank at this place.
    pub fn get(&self, at: usize) -> u64
        requires { at < length self.now.items }
        ensures { result ≡ slice_index self.now.items at }
    {
        self.ranks[at]
    }

    /// Sets the rank at this place. It does not allocate.
    pub fn set(&mut self, at: usize, rank: u64)
        requires { at < length self.old.items }
        ensures { self.new ≡ record self.old { items = set self.old.items at rank } }
    {
        self.ranks[at] = rank;
        let block = at / BLOCK;
        let least = least_in_block(&self.ranks, block);
        self.blocks.set(block, least);
    }

    /// Adds a rank at the end. It does not allocate.
    pub fn push(&mut self, rank: u64)
        requires { 0 < self.old.room }
        ensures items { self.new.items ≡ self.old.items ++ rank ∷ [] }
        ensures room { self.new.room + 1 ≡ self.old.room }
    {
        let block = self.ranks.len() / BLOCK;
        self.ranks.push_reserved(rank);
        self.room -= 1;
        if block < self.blocks.len() {
            let least = self.blocks.get(block).min(rank);
            self.blocks.set(block, least);
        } else {
            self.blocks.push(rank);
        }
    }

    /// Makes room for this many more ranks. The only error is out of memory, and then the ranks and the room are as before.
    pub fn reserve(&mut self, additional: usize) -> Result<(), NoMemory>
        ensures items { self.new.items ≡ self.old.items }
        ensures room { OnOk result (additional ≤ self.new.room) }
        ensures kept { self.old.room ≤ self.new.room }
    {
        if additional <= self.room {
            return Ok(());
        }
        self.ranks.reserve(additional)?;
        self.blocks.reserve(additional / BLOCK + 1)?;
        self.room = additional;
        Ok(())
    }

    /// The least of the ranks, and `NO_RANK` if there are none. It takes constant time, and does not allocate.
    pub fn least(&self) -> u64
        ensures { result ≡ least_rank self.now.items }
    {
        self.blocks.least()
    }

    /// The place of the first rank that is at most the bound, which is below `NO_RANK`. None if all ranks are above it.
    /// It does not allocate.
    pub fn first(&self, bound: u64) -> Option<usize>
        requires { bound < no_rank }
        ensures { result ≡ first_within bound self.now.items }
    {
        match self.blocks.first(bound) {
            None => None,
            Some(block) => first_in_block(&self.ranks, block, bound),
        }
    }

    /// The place of the first rank at or after this place that is at most the bound, which is below `NO_RANK`. None if all of these are
    /// above it, or if there are none. A place that is found can be counted up. It does not allocate.
    pub fn first_from(&self, from: usize, bound: u64) -> Option<usize>
        requires { bound < no_rank }
        ensures found { result ≡ first_within_from from bound self.now.items }
        ensures next { IfSome result (λ place. place + 1 < 2 ^ 64) }
    {
        if from >= self.ranks.len() {
            return None;
        }
        let end = block_end(from / BLOCK, self.ranks.len());
        match first_in(&self.ranks, from, end, bound) {
            Some(place) => Some(place),
            None => first_in_later(&self.ranks, &self.blocks, from / BLOCK + 1, bound),
        }
    }
}
