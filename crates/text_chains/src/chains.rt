//! The map.
ghost use Rattle.std.specs.Prelude.{◌≡◌, ◌+◌, ◌<◌, ◌≤◌, ℕ, List, [], length, OnOk, IsTrue, ◌↔◌};
ghost use Rattle.std.specs.List.{Contains};
ghost use Rattle.text_chains.specs.Chains.{places_of, with_place};

use crate::links::{Link, MOST_BYTES};
use crate::places::{Places, places_from};
use bt_base::NoMemory;
use hash_index::{HashIndex, text_hash};
use std::alloc::Global;
use std::marker::Model;

/// Lists of places by text.
///
/// Contracts see the places of each text, the one that was added last first, and beside them the room: how many more places can be
/// added without allocating.
pub struct TextChains {
    /// The numbers of the links, from 0, by the hashes of their texts.
    index: HashIndex,
    links: Vec<Link>,
    /// The texts of the links, one after the other.
    texts: Vec<u8>,
    room: usize,
}

impl Drop for TextChains {
    fn drop(self) {
        let TextChains {
            index: _index,
            links: _links,
            texts: _texts,
            room: _room,
        } = self;
    }
}

impl Model for TextChains {
    ghost use Rattle.text_chains.specs.Chains.{ChainsView, chains_of, AreHashed, HasRoom};

    ghost Value = { ChainsView };

    ghost view = { λ t. record { chains = chains_of t.links.items t.texts.items; room = t.room } };

    ghost invariant = { λ t. AreHashed t.index.hashes t.links.items t.texts.items × HasRoom t.index.room t.links t.texts t.room };
}

impl TextChains {
    /// No text has places. It does not allocate.
    pub fn new(alloc: Global) -> TextChains
        ensures { (text : List ℕ) → places_of result text ≡ [] }
    {
        TextChains {
            index: HashIndex::new(alloc),
            links: Vec::new(alloc),
            texts: Vec::new(alloc),
            room: 0,
        }
    }

    /// The places of a text, the one that was added last first. It does not allocate.
    pub fn places(&self, text: &[u8]) -> Places<'_>
        ensures { result ≡ places_of self.now text.now }
    {
        let numbers = self.index.places(text_hash(text));
        places_from(numbers, self.links.as_slice(), self.texts.as_slice(), text)
    }

    /// Whether the place is one of the text's. It does not allocate.
    pub fn has(&self, text: &[u8], place: usize) -> bool
        ensures { IsTrue result ↔ Contains (places_of self.now text.now) place }
    {
        self.places(text).any(|other| other == place)
    }

    /// Adds a place to those of a text, before them. It cannot run out of memory.
    pub fn add(&mut self, text: &[u8], place: usize)
        requires room { 0 < self.old.room }
        requires short { length text.now ≤ MOST_BYTES }
        ensures places { (other : List ℕ) → places_of self.new other ≡ with_place (places_of self.old) text.now place other }
        ensures room { self.new.room + 1 ≡ self.old.room }
    {
        self.index.add(text_hash(text));
        match self.texts.extend_from_slice(text) {
            Ok(()) => {}
            Err(_) => unreachable!(),
        }
        let text_end = self.texts.len();
        self.links.push_reserved(Link { place, text_end });
        self.room -= 1;
    }

    /// Makes room for this many more places. The only error is out of memory, also where there would be more than
    /// 4,294,967,295 places.
    pub fn reserve(&mut self, additional: usize) -> Result<(), NoMemory>
        ensures places { (text : List ℕ) → places_of self.new text ≡ places_of self.old text }
        ensures room { OnOk result (additional ≤ self.new.room) }
    {
        // If it fails, some parts may have less room than before.
        self.room = 0;
        let Some(bytes) = additional.checked_mul(MOST_BYTES) else {
            return Err(NoMemory);
        };
        self.index.reserve(additional)?;
        self.links.reserve(additional)?;
        self.texts.reserve(bytes)?;
        self.room = additional;
        Ok(())
    }
}
