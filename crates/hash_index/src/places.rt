//! The places with one hash.
ghost use Rattle.std.specs.Prelude.{◌≡◌};
ghost use Rattle.std.specs.Iterator.{YieldsFirst, item_count};
ghost use Rattle.hash_index.specs.Hashes.{places_below};
ghost use Rattle.hash_index.specs.Chains.{IsOnChain};

use std::marker::Model;

/// The places with one hash, the one that was added last first. Contracts see the list of the places that are left.
#[derive(Drop)]
pub struct Places<'a> {
    hashes: &'a [u32],
    nexts: &'a [u32],
    /// The count of the buckets.
    count: usize,
    hash: u32,
    /// The number of the bucket's place that comes next: one plus the place, or 0.
    number: usize,
}

impl<'a> Model for Places<'a> {
    ghost use Rattle.std.specs.Prelude.{ℕ, List};
    ghost use Rattle.hash_index.specs.Hashes.{places_below};
    ghost use Rattle.hash_index.specs.Chains.{IsOnChain};

    ghost Value = { List ℕ };

    ghost view = { λ p. places_below p.number p.hash p.hashes.now };

    ghost invariant = { λ p. IsOnChain p.count p.hashes.now p.nexts.now p.hash p.number };
}

/// The places with this hash, from the number on.
pub fn places_from<'a>(
    hashes: &'a [u32],
    nexts: &'a [u32],
    count: usize,
    hash: u32,
    number: usize,
) -> Places<'a>
    requires { IsOnChain count hashes.now nexts.now hash number }
    ensures { result ≡ places_below number hash hashes.now }
{
    Places {
        hashes,
        nexts,
        count,
        hash,
        number,
    }
}

impl<'a> Iterator for Places<'a> {
    type Item = usize;

    ghost next_gives = { YieldsFirst (λ places. places) };

    ghost remaining = { item_count (λ places. places) };

    fn next(&mut self) -> Option<usize> {
        while let Some(place) = self.number.checked_sub(1) {
            self.number = self.nexts[place] as usize;
            if self.hashes[place] == self.hash {
                return Some(place);
            }
        }
        None
    }
}
