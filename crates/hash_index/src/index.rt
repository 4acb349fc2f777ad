//! The index.
ghost use Rattle.std.specs.Prelude.{◌≡◌, ◌+◌, ◌<◌, ◌≤◌, [], ◌∷◌, ◌++◌, OnOk};
ghost use Rattle.hash_index.specs.Hashes.{places_with};

use crate::buckets::{bucket_of, first_number, widen};
use crate::places::{Places, places_from};
use bt_base::NoMemory;
use std::alloc::Global;
use std::marker::Model;

/// The most places: the number of each is stored in 32 bits.
const MOST_PLACES: usize = 4_294_967_295;
/// The most places to a bucket, on average. The buckets are widened to twice as many as this asks for, so that there are about half as many
/// places to each then.
const PLACES_PER_BUCKET: usize = 4;

/// Places by their hashes.
///
/// Contracts see the hashes by their places, and beside them the room: how many more can be added without allocating.
pub struct HashIndex {
    hashes: Vec<u32>,
    /// For each place the number of the last place before it in its bucket: one plus the place, or 0.
    nexts: Vec<u32>,
    /// For each bucket the number of its last place, or 0.
    heads: Vec<u32>,
    room: usize,
}

impl Drop for HashIndex {
    fn drop(self) {
        let HashIndex {
            hashes: _hashes,
            nexts: _nexts,
            heads: _heads,
            room: _room,
        } = self;
    }
}

impl Model for HashIndex {
    ghost use Rattle.hash_index.specs.Hashes.{HashesView};
    ghost use Rattle.hash_index.specs.Chains.{IsChained, HasRoom};

    ghost Value = { HashesView };

    ghost view = { λ i. record { hashes = i.hashes.items; room = i.room } };

    ghost invariant = { λ i. IsChained i.hashes.items i.nexts.items i.heads.items × HasRoom i.hashes i.nexts i.heads.items i.room };
}

impl HashIndex {
    /// No places. It does not allocate.
    pub fn new(alloc: Global) -> HashIndex
        ensures { result.hashes ≡ [] }
    {
        HashIndex {
            hashes: Vec::new(alloc),
            nexts: Vec::new(alloc),
            heads: Vec::new(alloc),
            room: 0,
        }
    }

    /// The places with this hash, the one that was added last first. It does not allocate.
    pub fn places(&self, hash: u32) -> Places<'_>
        ensures { result ≡ places_with hash self.now.hashes }
    {
        let number = first_number(&self.heads, hash);
        places_from(&self.hashes, &self.nexts, self.heads.len(), hash, number)
    }

    /// Adds a hash at the next place. It cannot run out of memory.
    pub fn add(&mut self, hash: u32)
        requires { 0 < self.old.room }
        ensures hashes { self.new.hashes ≡ self.old.hashes ++ hash ∷ [] }
        ensures room { self.new.room + 1 ≡ self.old.room }
    {
        let bucket = bucket_of(hash, self.heads.len());
        self.nexts.push_reserved(self.heads[bucket]);
        self.hashes.push_reserved(hash);
        self.heads[bucket] = self.hashes.len() as u32;
        self.room -= 1;
    }

    /// Makes room for this many more. The only error is out of memory, also where there would be more than 4,294,967,295 places.
    pub fn reserve(&mut self, additional: usize) -> Result<(), NoMemory>
        ensures hashes { self.new.hashes ≡ self.old.hashes }
        ensures room { OnOk result (additional ≤ self.new.room) }
    {
        if additional > MOST_PLACES - self.hashes.len() {
            return Err(NoMemory);
        }
        let wanted = self.hashes.len() + additional;
        self.hashes.reserve(additional)?;
        self.nexts.reserve(additional)?;
        let buckets = wanted / PLACES_PER_BUCKET + 1;
        widen(&self.hashes, &mut self.nexts, &mut self.heads, buckets)?;
        self.room = additional;
        Ok(())
    }
}
