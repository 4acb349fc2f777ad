//! Hashes in buckets.
ghost use Rattle.std.specs.Prelude.{◌≡◌, ◌%◌, ◌<◌, ◌≤◌, length, slice_index, IfOk, OnOk, ℕ};
ghost use Rattle.hash_index.specs.Chains.{IsChained};

use bt_base::NoMemory;
use std::alloc::Global;

/// So many empty buckets.
pub fn empty_buckets(alloc: Global, count: usize) -> Result<Vec<u32>, NoMemory>
    ensures length { IfOk result (λ heads. length heads.items ≡ count) }
    ensures empty { IfOk result (λ heads. (bucket : ℕ) → slice_index heads.items bucket ≡ 0) }
{
    let mut heads: Vec<u32> = Vec::new(alloc);
    heads.resize(count, 0)?;
    Ok(heads)
}

/// The bucket of a hash.
pub fn bucket_of(hash: u32, count: usize) -> usize
    requires { 0 < count }
    ensures { result ≡ hash % count }
{
    hash as usize % count
}

/// The number of the last place in the hash's bucket, or 0.
pub fn first_number(heads: &[u32], hash: u32) -> usize
    ensures { result ≡ slice_index heads.now (hash % length heads.now) }
{
    if heads.is_empty() {
        0
    } else {
        heads[bucket_of(hash, heads.len())] as usize
    }
}

/// Puts the places of all hashes into empty buckets.
fn chain_all(hashes: &[u32], nexts: &mut [u32], heads: &mut [u32])
    requires long { length nexts.old ≡ length hashes.now }
    requires few { length hashes.now ≤ 4294967295 }
    requires some { 0 < length heads.old }
    requires empty { (bucket : ℕ) → slice_index heads.old bucket ≡ 0 }
    ensures chained { IsChained hashes.now nexts.new heads.new }
    ensures count { length heads.new ≡ length heads.old }
{
    for place in 0..hashes.len() {
        let bucket = bucket_of(hashes[place], heads.len());
        nexts[place] = heads[bucket];
        heads[bucket] = place as u32 + 1;
    }
}

/// Makes at least as many buckets as are wanted. The only error is out of memory.
pub fn widen(
    hashes: &[u32],
    nexts: &mut [u32],
    heads: &mut Vec<u32>,
    wanted: usize,
) -> Result<(), NoMemory>
    requires chained { IsChained hashes.now nexts.old heads.old.items }
    requires few { length hashes.now ≤ 4294967295 }
    requires small { wanted ≤ 4294967295 }
    ensures chained { IsChained hashes.now nexts.new heads.new.items }
    ensures wide { OnOk result (wanted ≤ length heads.new.items) }
    ensures more { length heads.old.items ≤ length heads.new.items }
{
    if wanted <= heads.len() {
        return Ok(());
    }
    let mut wider = empty_buckets(*heads.allocator(), 2 * wanted)?;
    chain_all(hashes, nexts, &mut wider);
    *heads = wider;
    Ok(())
}
