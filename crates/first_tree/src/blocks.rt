//! Blocks of 16 ranks, in a slice of all ranks.
ghost use Rattle.std.specs.Prelude.{◌≡◌, ◌+◌, ◌*◌, ◌<◌, ◌≤◌, min, length};
ghost use Rattle.first_tree.specs.Blocks.{IsFirstIn, IsLeastIn};

/// How many ranks a block has; the last one may have fewer.
pub const BLOCK: usize = 16;

/// The place after the last rank of a block, where there are `len` ranks.
pub fn block_end(block: usize, len: usize) -> usize
    requires { 16 * block < len }
    ensures { result ≡ min (16 * block + 16) len }
{
    let start = BLOCK * block;
    if len - start < BLOCK {
        len
    } else {
        start + BLOCK
    }
}

/// The place of the first rank from `from` on and before `end` that is at most the bound.
pub fn first_in(ranks: &[u64], from: usize, end: usize, bound: u64) -> Option<usize>
    requires { end ≤ length ranks.now }
    ensures { IsFirstIn ranks.now from end bound result }
{
    for at in from..end {
        if ranks[at] <= bound {
            return Some(at);
        }
    }
    None
}

/// The least of the ranks from `from` on and before `end`, of which there is at least one.
pub fn least_in(ranks: &[u64], from: usize, end: usize) -> u64
    requires some { from < end }
    requires within { end ≤ length ranks.now }
    ensures { IsLeastIn ranks.now from end result }
{
    let mut least = ranks[from];
    for at in from + 1..end {
        least = least.min(ranks[at]);
    }
    least
}

/// The place of the first rank of this block that is at most the bound.
pub fn first_in_block(ranks: &[u64], block: usize, bound: u64) -> Option<usize>
    requires { 16 * block < length ranks.now }
    ensures { IsFirstIn ranks.now (16 * block) (min (16 * block + 16) (length ranks.now)) bound result }
{
    let len = ranks.len();
    let end = block_end(block, len);
    first_in(ranks, BLOCK * block, end, bound)
}

/// The least rank of this block.
pub fn least_in_block(ranks: &[u64], block: usize) -> u64
    requires { 16 * block < length ranks.now }
    ensures { IsLeastIn ranks.now (16 * block) (min (16 * block + 16) (length ranks.now)) result }
{
    let len = ranks.len();
    let end = block_end(block, len);
    least_in(ranks, BLOCK * block, end)
}
