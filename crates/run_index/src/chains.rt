//! Places that are added to those of a text.
ghost use Rattle.std.specs.Prelude.{◌+◌, ◌<◌, ◌≤◌, length};
ghost use Rattle.run_index.specs.Texts.{IsAdded};

use text_chains::{MOST_BYTES, TextChains};

/// Adds a place to those of a text, unless it is one of them. It does not allocate.
pub fn add_place(chains: &mut TextChains, text: &[u8], place: usize)
    requires room { 0 < chains.old.room }
    requires short { length text.now ≤ MOST_BYTES }
    ensures places { IsAdded chains.old chains.new text.now place }
    ensures room { chains.old.room ≤ chains.new.room + 1 }
{
    if !chains.has(text, place) {
        chains.add(text, place);
    }
}
