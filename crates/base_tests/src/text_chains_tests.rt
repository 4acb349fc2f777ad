//! A test of chains of places by text, with the loop of a caller.
ghost use Rattle.std.specs.Prelude.{◌≡◌, ◌<◌, ◌^◌, nat_lt, slice_index, sum_by};
ghost use Rattle.std.specs.List.{list_any};
ghost use Rattle.text_chains.specs.Chains.{places_of};

use bt_base::NoMemory;
use std::alloc::Global;
use std::test::Fail as TestFail;
use text_chains::TextChains;

fn chains(alloc: Global) -> Result<TextChains, NoMemory> {
    let mut chains = TextChains::new(alloc);
    chains.reserve(4)?;
    chains.add(b"a", 0);
    chains.add(b"b", 1);
    chains.add(b"a", 3);
    chains.reserve(1)?;
    chains.add(b"a", 2);
    Ok(chains)
}

fn value_at(values: &[u64], place: usize) -> u64
    ensures { result ≡ slice_index values.now place }
{
    values.get(place).copied().unwrap_or(0)
}

/// The sum of the values at the places of a text.
fn sum_at(chains: &TextChains, text: &[u8], values: &[u64]) -> u64
    requires { sum_by (slice_index values.now) (places_of chains.now text.now) < 2 ^ 64 }
    ensures { result ≡ sum_by (slice_index values.now) (places_of chains.now text.now) }
{
    let mut sum = 0;
    for place in chains.places(text) {
        sum += value_at(values, place);
    }
    sum
}

/// Whether some value at the places of a text is above this one.
fn has_above(chains: &TextChains, text: &[u8], values: &[u64], low: u64) -> bool
    ensures { result ≡ list_any (λ place. nat_lt low (slice_index values.now place)) (places_of chains.now text.now) }
{
    chains
        .places(text)
        .any(|place| value_at(values, place) > low)
}

#[test]
fn texts_have_their_places(rt: HostRuntime) -> Result<(), TestFail> {
    let chains = chains(rt.alloc())?;
    let mut places = chains.places(b"a");
    assert_eq!(rt; places.next(), Some(2));
    assert_eq!(rt; places.next(), Some(3));
    assert_eq!(rt; places.next(), Some(0));
    assert_eq!(rt; places.next(), None);
    assert_eq!(rt; chains.places(b"c").next(), None);
    assert!(rt; chains.has(b"b", 1));
    assert!(rt; !chains.has(b"b", 0));
    assert!(rt; !has_above(&chains, b"b", &[9, 1], 1));
    Ok(())
}
