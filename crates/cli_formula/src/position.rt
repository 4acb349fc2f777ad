//! Lines and columns of places in a text.
ghost use Rattle.std.specs.Prelude.{◌≡◌, ◌≤◌, length, count_by};
ghost use Rattle.cli_formula.specs.Positions.{position_of, is_line_feed, bytes_after_line_feed};

/// A place in a text, as a reader counts it. An LF ends a line, and belongs to it.
#[derive(Clone, Copy, Debug, PartialEq, Eq)]
pub struct Position {
    /// The line's number, from 1.
    pub line: usize,
    /// The byte's number in its line, from 1.
    pub column: usize,
}

fn line_feeds(bytes: &[u8]) -> usize
    ensures count { result ≡ count_by is_line_feed bytes.now }
    ensures bound { result ≤ length bytes.now }
{
    bytes.iter().filter(|b| **b == b'\n').count()
}

/// How many bytes come after the last LF, or in all if there is none.
fn bytes_after_line_feed(bytes: &[u8]) -> usize
    ensures count { result ≡ bytes_after_line_feed bytes.now }
    ensures bound { result ≤ length bytes.now }
{
    bytes.iter().rev().take_while(|b| **b != b'\n').count()
}

/// The position of the byte with this offset, or of the text's end if it has fewer bytes.
pub fn position_of(text: &[u8], offset: usize) -> Position
    ensures { result ≡ position_of text.now offset }
{
    let before = &text[..offset.min(text.len())];
    Position {
        line: line_feeds(before) + 1,
        column: bytes_after_line_feed(before) + 1,
    }
}
