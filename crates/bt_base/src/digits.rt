//! Numbers as decimal digits, as the lines of a script and the options of the command line have them.
ghost use Rattle.std.specs.Prelude.{◌≡◌};
ghost use Rattle.std.specs.List.{list_all};
ghost use Rattle.std.specs.Char.{is_ascii_digit};
ghost use Rattle.bt_base.specs.Digits.{number_in};

use crate::text_of;

/// Whether the text has digits alone.
fn has_digits(text: &[u8]) -> bool
    ensures { result ≡ list_all is_ascii_digit text.now }
{
    text.iter().all(|b| b.is_ascii_digit())
}

/// A number of 64 bits: one digit or more, and nothing else; leading zeros are accepted. It does not allocate.
pub fn read_number(text: &[u8]) -> Option<u64>
    ensures { result ≡ number_in text.now }
{
    if !has_digits(text) {
        return None;
    }
    match text_of(text) {
        Some(text) => text.parse::<u64>().ok(),
        None => None,
    }
}
