//! Operators and other marks of a formula's text.
ghost use Rattle.std.specs.Prelude.{◌≡◌};
ghost use Rattle.formula_trees.specs.Pieces as pieces;

use crate::token::{BinaryOperator, Kind};

/// The operator that these two bytes are.
pub fn two_marks(byte: u8, next: u8) -> Option<Kind>
    ensures { result ≡ pieces.two_marks byte next }
{
    if byte == b'=' && next == b'=' {
        Some(Kind::Infix(BinaryOperator::Equal))
    } else if byte == b'!' && next == b'=' {
        Some(Kind::Infix(BinaryOperator::NotEqual))
    } else if byte == b'<' && next == b'=' {
        Some(Kind::Infix(BinaryOperator::AtMost))
    } else if byte == b'>' && next == b'=' {
        Some(Kind::Infix(BinaryOperator::AtLeast))
    } else if byte == b'&' && next == b'&' {
        Some(Kind::Infix(BinaryOperator::And))
    } else if byte == b'|' && next == b'|' {
        Some(Kind::Infix(BinaryOperator::Or))
    } else {
        None
    }
}

/// The operator that this byte is by itself.
fn one_operator(byte: u8) -> Option<Kind>
    ensures { result ≡ pieces.one_operator byte }
{
    match byte {
        b'<' => Some(Kind::Infix(BinaryOperator::Less)),
        b'>' => Some(Kind::Infix(BinaryOperator::Greater)),
        b'+' => Some(Kind::Infix(BinaryOperator::Add)),
        b'-' => Some(Kind::Infix(BinaryOperator::Subtract)),
        b'*' => Some(Kind::Infix(BinaryOperator::Multiply)),
        b'/' => Some(Kind::Infix(BinaryOperator::Divide)),
        _ => None,
    }
}

/// The other mark that this byte is by itself.
fn other_mark(byte: u8) -> Option<Kind>
    ensures { result ≡ pieces.other_mark byte }
{
    match byte {
        b'!' => Some(Kind::Bang),
        b'?' => Some(Kind::Question),
        b':' => Some(Kind::Colon),
        b'=' => Some(Kind::Assign),
        b';' => Some(Kind::Semicolon),
        b',' => Some(Kind::Comma),
        b'.' => Some(Kind::Dot),
        b'(' => Some(Kind::OpenGroup),
        b')' => Some(Kind::CloseGroup),
        b'[' => Some(Kind::OpenList),
        b']' => Some(Kind::CloseList),
        _ => None,
    }
}

/// The operator or other mark that this byte is by itself.
pub fn one_mark(byte: u8) -> Option<Kind>
    ensures { result ≡ pieces.one_mark byte }
{
    match one_operator(byte) {
        Some(kind) => Some(kind),
        None => other_mark(byte),
    }
}
