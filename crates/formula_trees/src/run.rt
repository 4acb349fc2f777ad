//! The lengths of digits, names, lines and strings in a formula's text, in bytes.
ghost use Rattle.std.specs.Prelude.{◌≡◌, ◌≤◌, ◌<◌, ◌==◌, ◌||◌, Option, not, length, IfSome};
ghost use Rattle.std.specs.List.{position};
ghost use Rattle.std.specs.Char.{is_ascii_digit};
ghost use Rattle.formula_trees.specs.Pieces.{up_to, or_all, digits_in, is_name_byte as is_name_byte_of, is_line_end, is_string_end};

/// The number of digits that the text begins with.
pub fn digits_length(text: &[u8]) -> usize
    ensures value { result ≡ digits_in text.now }
    ensures within { result ≤ length text.now }
{
    or_length(first_other(text), text)
}

/// The first byte that is not a digit.
fn first_other(text: &[u8]) -> Option<usize>
    ensures value { result ≡ position (λ b. not (is_ascii_digit b)) text.now }
    ensures within { IfSome result (λ place. place < length text.now) }
{
    text.iter().position(|byte| !byte.is_ascii_digit())
}

/// The number of letters, digits and `_` that the text begins with.
pub fn name_length(text: &[u8]) -> usize
    ensures value { result ≡ up_to (λ b. not (is_name_byte_of b)) text.now }
    ensures within { result ≤ length text.now }
{
    or_length(name_end(text), text)
}

/// The first byte that no name has.
fn name_end(text: &[u8]) -> Option<usize>
    ensures value { result ≡ position (λ b. not (is_name_byte_of b)) text.now }
    ensures within { IfSome result (λ place. place < length text.now) }
{
    text.iter().position(|byte| !is_name_byte(*byte))
}

/// The number of bytes before the end of the line.
pub fn line_length(text: &[u8]) -> usize
    ensures value { result ≡ up_to is_line_end text.now }
    ensures within { result ≤ length text.now }
{
    or_length(line_end(text), text)
}

/// The end of the line.
fn line_end(text: &[u8]) -> Option<usize>
    ensures value { result ≡ position is_line_end text.now }
    ensures within { IfSome result (λ place. place < length text.now) }
{
    text.iter().position(|byte| *byte == b'\n')
}

/// The number of bytes before a quote or the end of the line.
pub fn string_length(text: &[u8]) -> usize
    ensures value { result ≡ up_to is_string_end text.now }
    ensures within { result ≤ length text.now }
{
    or_length(string_end(text), text)
}

/// The first quote or the end of the line.
fn string_end(text: &[u8]) -> Option<usize>
    ensures value { result ≡ position is_string_end text.now }
    ensures within { IfSome result (λ place. place < length text.now) }
{
    text.iter().position(|byte| *byte == b'"' || *byte == b'\n')
}

fn is_name_byte(byte: u8) -> bool
    ensures { result ≡ is_name_byte_of byte }
{
    byte.is_ascii_alphanumeric() || byte == b'_'
}

/// A place in the text, or its length if there is none.
fn or_length(place: Option<usize>, text: &[u8]) -> usize
    ensures { result ≡ or_all (length text.now) place }
{
    match place {
        Some(place) => place,
        None => text.len(),
    }
}
