//! What a formula's text has at a place.
ghost use Rattle.std.specs.Prelude.{◌≡◌, ◌∷◌, ◌≤◌, ◌==◌, ◌+◌, length};
ghost use Rattle.formula_trees.specs.Pieces.{more_of, piece_at, mark_at, string_at, number_at, next_byte, decimals_of, is_blank as is_blank_byte};

use crate::lex_fault::LexFault;
use crate::literal::literal;
use crate::marks::{one_mark, two_marks};
use crate::run::{digits_length, line_length, name_length, string_length};
use crate::token::Kind;

/// What a text has at a place, with the number of its bytes after the first.
#[derive(Clone, Copy, Debug)]
pub enum Piece {
    /// A blank, or a comment.
    Gap(usize),
    /// A token.
    Lexeme(Kind, usize),
    /// What no formula has.
    Wrong(LexFault),
}

/// What a text has at this place, which has this byte and then the rest.
#[tactic(auto, unfolding(crate::specs::Pieces::piece_at))]
pub fn find_piece(place: usize, byte: u8, rest: &[u8]) -> Piece
    ensures value { result ≡ piece_at place byte rest.now }
    ensures within { more_of result ≤ length rest.now }
{
    if is_blank(byte) {
        Piece::Gap(0)
    } else if byte == b'/' && next(rest) == b'/' {
        Piece::Gap(line_length(rest))
    } else if byte.is_ascii_alphabetic() || byte == b'$' && next(rest).is_ascii_alphabetic() {
        Piece::Lexeme(Kind::Name, name_length(rest))
    } else if byte.is_ascii_digit() {
        number(place, byte, rest)
    } else if byte == b'"' {
        string(place, rest)
    } else {
        mark(place, byte, rest)
    }
}

fn is_blank(byte: u8) -> bool
    ensures { result ≡ is_blank_byte byte }
{
    byte == b' ' || byte == b'\t' || byte == b'\r' || byte == b'\n'
}

/// The first byte, or 0 if there is none.
fn next(rest: &[u8]) -> u8
    ensures { result ≡ next_byte rest.now }
{
    match rest.first() {
        Some(byte) => *byte,
        None => 0,
    }
}

/// A number, of which this is the first digit.
fn number(place: usize, digit: u8, rest: &[u8]) -> Piece
    ensures value { result ≡ number_at place digit rest.now }
    ensures within { more_of result ≤ length rest.now }
{
    let whole = digits_length(rest);
    let decimals = decimals(&rest[whole..]);
    let more = if decimals.is_empty() {
        whole
    } else {
        whole + 1 + decimals.len()
    };
    match literal(digit, &rest[..whole], decimals) {
        Some(number) => Piece::Lexeme(Kind::Number(number), more),
        None => Piece::Wrong(LexFault::NumberTooLarge(place)),
    }
}

/// The digits after a point. None if the text does not begin with one.
fn decimals(rest: &[u8]) -> &[u8]
    ensures { result.now ≡ decimals_of rest.now }
{
    if next(rest) == b'.' {
        let after = &rest[1..];
        &after[..digits_length(after)]
    } else {
        &rest[..0]
    }
}

/// A string, whose opening quote is at this place.
fn string(place: usize, rest: &[u8]) -> Piece
    ensures value { result ≡ string_at place rest.now }
    ensures within { more_of result ≤ length rest.now }
{
    let length = string_length(rest);
    if next(&rest[length..]) == b'"' {
        Piece::Lexeme(Kind::Text, length + 1)
    } else {
        Piece::Wrong(LexFault::OpenString(place))
    }
}

/// The longest operator or other mark here.
fn mark(place: usize, byte: u8, rest: &[u8]) -> Piece
    ensures value { result ≡ mark_at place byte rest.now }
    ensures within { more_of result ≤ length rest.now }
{
    if let Some(kind) = two_marks(byte, next(rest)) {
        return Piece::Lexeme(kind, 1);
    }
    match one_mark(byte) {
        Some(kind) => Piece::Lexeme(kind, 0),
        None => Piece::Wrong(LexFault::BadCharacter(place)),
    }
}
