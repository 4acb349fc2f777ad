//! The parts of a line, which spaces separate.
ghost use Rattle.std.specs.Prelude.{◌≡◌, option_map};
ghost use Rattle.std.specs.List.{position, list_any};
ghost use Rattle.wire_lines.specs.Parts.{is_space, two_parts, one_part, just_two, first_word, arguments};

/// The place of the first space.
fn first_space(text: &[u8]) -> Option<usize>
    ensures { result ≡ position is_space text.now }
{
    text.iter().position(|b| *b == b' ')
}

/// Whether the text has a space.
fn has_space(text: &[u8]) -> bool
    ensures { result ≡ list_any is_space text.now }
{
    text.iter().any(|b| *b == b' ')
}

/// The text before the first space, and the text after it; None if there is no space. It does not allocate.
pub fn split_two(text: &[u8]) -> Option<(&[u8], &[u8])>
    ensures { option_map (λ p. (p.0.now, p.1.now)) result ≡ two_parts text.now }
{
    let at = first_space(text)?;
    Some((&text[..at], &text[at + 1..]))
}

/// The text, if it has no space. It does not allocate.
pub fn split_one(text: &[u8]) -> Option<&[u8]>
    ensures { option_map (λ p. p.now) result ≡ one_part text.now }
{
    if has_space(text) { None } else { Some(text) }
}

/// Two texts without a space, separated by one. It does not allocate.
pub fn split_just_two(text: &[u8]) -> Option<(&[u8], &[u8])>
    ensures { option_map (λ p. (p.0.now, p.1.now)) result ≡ just_two text.now }
{
    let (first, rest) = split_two(text)?;
    let last = split_one(rest)?;
    Some((first, last))
}

/// The text before the first space, and the text after it, if there is a space. It does not allocate.
pub fn split_word(text: &[u8]) -> (&[u8], Option<&[u8]>)
    ensures word { result.0.now ≡ first_word text.now }
    ensures arguments { option_map (λ p. p.now) result.1 ≡ arguments text.now }
{
    match split_two(text) {
        None => (text, None),
        Some((word, rest)) => (word, Some(rest)),
    }
}
