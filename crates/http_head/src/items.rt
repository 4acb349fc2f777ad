//! Lists in the values of fields (RFC 9110, section 5.6.1).
ghost use Rattle.std.specs.Prelude.{◌≡◌, ◌+◌, ◌<◌, [], ◌∷◌, length, drop, MatchOption, IfSome};
ghost use Rattle.std.specs.List.{position, prefix_len, suffix_len, slice_split};
ghost use Rattle.http_head.specs.Items.{is_blank, is_comma, skip_blank, drop_blank, is_item, has_item};

/// Whether the byte is a space or a tab.
fn is_blank(byte: u8) -> bool
    ensures { result ≡ is_blank byte }
{
    byte == b' ' || byte == b'\t'
}

/// The text without the white space before it.
fn skip_blank(text: &[u8]) -> &[u8]
    ensures { result.now ≡ skip_blank text.now }
{
    let mut at = 0;
    while at < text.len() && is_blank(text[at]) {
        at += 1;
    }
    &text[at..]
}

/// The text without the white space after it.
fn drop_blank(text: &[u8]) -> &[u8]
    ensures { result.now ≡ drop_blank text.now }
{
    let mut end = text.len();
    while end > 0 && is_blank(text[end - 1]) {
        end -= 1;
    }
    &text[..end]
}

/// Whether the item has this name, in any case.
fn is_item(item: &[u8], name: &[u8]) -> bool
    ensures { result ≡ is_item name.now item.now }
{
    drop_blank(skip_blank(item)).eq_ignore_ascii_case(name)
}

/// The place of the first comma.
fn first_comma(text: &[u8]) -> Option<usize>
    ensures { result ≡ position is_comma text.now }
{
    text.iter().position(|b| *b == b',')
}

/// The first item of a list, and the text after its comma; None if there is no comma.
fn split_first(text: &[u8]) -> Option<(&[u8], &[u8])>
    ensures parts { MatchOption result
        (slice_split is_comma text.now ≡ text.now ∷ [])
        (λ parts. slice_split is_comma text.now ≡ parts.0.now ∷ slice_split is_comma parts.1.now) }
    ensures shorter { IfSome result (λ parts. length parts.1.now < length text.now) }
{
    match first_comma(text) {
        Some(at) => Some((&text[..at], &text[at + 1..])),
        None => None,
    }
}

/// Whether a list has an item with this name, in any case.
pub fn has_item(value: &[u8], name: &[u8]) -> bool
    ensures { result ≡ has_item name.now value.now }
{
    let mut rest = value;
    'items: while let Some((item, more)) = split_first(rest) {
        if is_item(item, name) {
            return true;
        }
        rest = more;
    }
    is_item(rest, name)
}
