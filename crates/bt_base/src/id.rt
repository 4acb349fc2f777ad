//! Ids of pools, jobs and tasks.
ghost use Rattle.std.specs.Prelude.{◌≡◌, ℕ, List, Bool, not, count_by, option_map};
ghost use Rattle.std.specs.List.{position};
ghost use Rattle.bt_base.specs.Fails.{Gives};
ghost use Rattle.bt_base.specs.Ids.{same, is_id_byte, character_count, bad_place, id_fault, id_number, read_id, within, IsId};

use crate::fail::Fail;
use crate::list::Duplicate;
use crate::memory::NoMemory;
use crate::text::Text;
use std::alloc::{AllocError, Global};
use std::marker::Model;

/// The greatest count of characters in an id (Azure Batch REST reference).
pub const MAX_ID_CHARACTERS: usize = 64;

/// The greatest number that an id of digits can stand for in a range of ids (Azure Batch REST reference: a signed 32-bit
/// integer).
pub const MAX_ID_NUMBER: u64 = 2_147_483_647;

/// An id: 1 to 64 ASCII letters, digits, `-` and `_`. Contracts see it as its bytes. Ids are compared without regard to
/// case (Azure Batch REST reference).
#[derive(Debug)]
pub struct Id {
    text: Text,
}

impl Drop for Id {
    fn drop(self) {
        let Id { text: _text } = self;
    }
}

impl Model for Id {
    ghost use Rattle.std.specs.Prelude.{ℕ, List};
    ghost use Rattle.bt_base.specs.Ids.{IsId};

    ghost Value = { List ℕ };

    ghost view = { λ i. i.text };

    ghost invariant = { λ i. IsId i.text };
}

/// Why a text is not an id: the first of these that holds.
#[derive(Clone, Copy, Debug, PartialEq, Eq)]
pub enum IdFault {
    /// The text is empty.
    Empty,
    /// It has more than 64 characters.
    TooLong,
    /// An id cannot have the character at this place, which counts bytes from 0.
    BadCharacter(usize),
}

impl Id {
    /// The id that the text is, or why it is not an id.
    #[tactic(auto, unfolding(crate::specs::Ids::read_id))]
    pub fn read(alloc: Global, text: &str) -> Result<Id, Fail<IdFault>>
        ensures { Gives result (read_id text.now) }
    {
        match fault_of(text) {
            Some(fault) => Err(Fail::Why(fault)),
            None => Ok(Id {
                text: Text::of_string(String::from_str(alloc, text)?)?,
            }),
        }
    }

    /// The id as a text. It does not allocate.
    pub fn as_str(&self) -> &str
        ensures { result.now ≡ self.now }
    {
        self.text.as_str()
    }

    /// Tells callers that the text is an id. It does nothing at run time.
    pub fn known(&self)
        ensures { IsId self.now }
    {
        let _ = &self.text;
    }

    /// The number that an id of digits alone stands for, up to 2,147,483,647; None for another id or a greater number.
    /// Leading zeros do not matter. It does not allocate.
    pub fn number(&self) -> Option<u32>
        ensures { result ≡ id_number self.now }
    {
        number_of(self.text.as_str().as_bytes())
    }

    /// Whether the ids are the same but for case. It does not allocate.
    pub fn same(&self, other: &Id) -> bool
        ensures { result ≡ same self.now other.now }
    {
        is_same(self.text.as_str(), other.text.as_str())
    }
}

impl Clone for Id {
    ghost is_clone = { λ id copy. copy ≡ id };

    fn clone(&self) -> Result<Id, AllocError> {
        Ok(Id {
            text: self.text.clone()?,
        })
    }
}

impl Duplicate for Id {
    fn copy(&self) -> Result<Id, NoMemory> {
        Ok(self.clone()?)
    }
}

/// Whether two texts are the same but for the case of ASCII letters. It does not allocate.
pub fn is_same(a: &str, b: &str) -> bool
    ensures { result ≡ same a.now b.now }
{
    a.eq_ignore_ascii_case(b)
}

fn is_id_byte(b: u8) -> bool
    ensures { result ≡ is_id_byte b }
{
    b.is_ascii_alphanumeric() || b == b'-' || b == b'_'
}

fn character_count(bytes: &[u8]) -> usize
    ensures { result ≡ character_count bytes.now }
{
    bytes.iter().filter(|b| !(128 <= **b && **b <= 191)).count()
}

fn bad_place(bytes: &[u8]) -> Option<usize>
    ensures { result ≡ bad_place bytes.now }
{
    bytes.iter().position(|b| !is_id_byte(*b))
}

fn number_of(digits: &[u8]) -> Option<u32>
    ensures { result ≡ id_number digits.now }
{
    let mut number: u64 = 0;
    for digit in digits {
        if !digit.is_ascii_digit() {
            return None;
        }
        number = 10 * number + u64::from(*digit - b'0');
        if number > MAX_ID_NUMBER {
            return None;
        }
    }
    Some(number as u32)
}

fn fault_of(text: &str) -> Option<IdFault>
    ensures { result ≡ id_fault text.now }
{
    let bytes = text.as_bytes();
    if bytes.is_empty() {
        Some(IdFault::Empty)
    } else if character_count(bytes) > MAX_ID_CHARACTERS {
        Some(IdFault::TooLong)
    } else {
        match bad_place(bytes) {
            Some(place) => Some(IdFault::BadCharacter(place)),
            None => None,
        }
    }
}
