//! The text of a key.
ghost use Rattle.std.specs.Prelude.{◌≡◌, ◌+◌, ◌<◌, ◌≤◌, length, [], ◌∷◌, ◌++◌, take};
ghost use Rattle.bt_base.specs.Ids.{lowered};
ghost use Rattle.kept_table.specs.Keys.{id_text, ids_text, number_id_text, number_text};

use bt_base::Id;
use std::marker::Model;

/// The most bytes that the text of a key has: a length and two ids of at most 64 bytes.
const MOST_BYTES: usize = 129;

/// The text of a key, of at most 129 bytes, in a value that does not allocate. Contracts see its bytes.
#[derive(Debug, Drop)]
pub struct KeyText {
    bytes: [u8; MOST_BYTES],
    len: usize,
}

impl Model for KeyText {
    ghost use Rattle.std.specs.Prelude.{ℕ, List, take, ◌≤◌};

    ghost Value = { List ℕ };

    ghost view = { λ k. take k.len k.bytes };

    ghost invariant = { λ k. k.len ≤ 129 };
}

impl KeyText {
    /// A text without bytes.
    pub fn new() -> KeyText
        ensures { result ≡ [] }
    {
        KeyText {
            bytes: [0; MOST_BYTES],
            len: 0,
        }
    }

    /// Adds a byte at the end.
    pub fn push(&mut self, byte: u8)
        requires { length self.old < 129 }
        ensures { self.new ≡ self.old ++ byte ∷ [] }
    {
        self.bytes[self.len] = byte;
        self.len += 1;
    }

    /// Adds bytes at the end, with small letters for capital ones.
    pub fn push_lowered(&mut self, text: &[u8])
        requires { length self.old + length text.now ≤ 129 }
        ensures { self.new ≡ self.old ++ lowered text.now }
    {
        for byte in text {
            self.push(byte.to_ascii_lowercase());
        }
    }

    /// Adds an id at the end, in small letters.
    #[tactic(auto, using(crate::proofs::IdLengths::id_short))]
    pub fn push_id(&mut self, id: &Id)
        requires { length self.old ≤ 65 }
        ensures { self.new ≡ self.old ++ lowered id.now }
    {
        id.known();
        self.push_lowered(id.as_str().as_bytes());
    }

    /// Adds the eight bytes of a number at the end, lowest first.
    pub fn push_number(&mut self, number: u64)
        requires { length self.old ≤ 121 }
        ensures { self.new ≡ self.old ++ number_text number }
    {
        let mut rest = number;
        for _ in 0..7usize {
            self.push((rest % 256) as u8);
            rest /= 256;
        }
        self.push(rest as u8);
    }

    /// The text of an id.
    pub fn of_id(id: &Id) -> KeyText
        ensures { result ≡ id_text id.now }
    {
        let mut text = KeyText::new();
        text.push_id(id);
        text
    }

    /// The text of a number.
    pub fn of_number(number: u64) -> KeyText
        ensures { result ≡ number_text number }
    {
        let mut text = KeyText::new();
        text.push_number(number);
        text
    }

    /// The text of a number and an id.
    #[tactic(auto, using(crate::proofs::KeyTexts::number_text_length))]
    pub fn of_number_and_id(number: u64, id: &Id) -> KeyText
        ensures { result ≡ number_id_text number id.now }
    {
        let mut text = KeyText::of_number(number);
        text.push_id(id);
        text
    }

    /// The text of two ids.
    #[tactic(auto, using(crate::proofs::IdLengths::id_short, crate::proofs::KeyTexts::lowered_length))]
    pub fn of_ids(first: &Id, second: &Id) -> KeyText
        ensures { result ≡ ids_text first.now second.now }
    {
        first.known();
        let mut text = KeyText::new();
        text.push(first.as_str().len() as u8);
        text.push_id(first);
        text.push_id(second);
        text
    }

    /// The bytes.
    pub fn as_slice(&self) -> &[u8]
        ensures bytes { result.now ≡ self.now }
        ensures short { length self.now ≤ 129 }
    {
        &self.bytes[..self.len]
    }
}
