//! Numbers of options.
ghost use Rattle.std.specs.Prelude.{◌≡◌, ◌≤◌, IfSome, option_map};
ghost use Rattle.cli_words.specs.Commands.{number_from_to, number_or};
ghost use Rattle.cli_words.specs.Ranges.{IsWithin};

use bt_base::read_number;

/// The greatest number of digits.
pub const DIGIT_LIMIT: usize = 20;

/// A number of 1 to 20 digits from `low` to `high`. It does not allocate.
pub fn number_from_to(low: u64, high: u64, text: &[u8]) -> Option<u64>
    ensures value { result ≡ number_from_to low high text.now }
    ensures range { IfSome result (IsWithin low high) }
{
    if text.len() > DIGIT_LIMIT {
        return None;
    }
    let number = read_number(text)?;
    if low <= number && number <= high {
        Some(number)
    } else {
        None
    }
}

/// The same, or `usual` if no text is given. It does not allocate.
pub fn number_or(usual: u64, low: u64, high: u64, text: Option<&str>) -> Option<u64>
    requires above { low ≤ usual }
    requires below { usual ≤ high }
    ensures value { result ≡ number_or usual low high (option_map (λ t. t.now) text.entry) }
    ensures range { IfSome result (IsWithin low high) }
{
    match text {
        None => Some(usual),
        Some(text) => number_from_to(low, high, text.as_bytes()),
    }
}
