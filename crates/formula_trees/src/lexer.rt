//! The tokens of a formula's text, one after the other.
ghost use Rattle.std.specs.Prelude.{◌≡◌, ◌+◌, ◌<◌, ◌^◌, ℕ, List, Result, length};
ghost use Rattle.bt_base.specs.Fails.{GivesAs};
ghost use Rattle.formula_trees.specs.Lexing.{Takes, lexed};
ghost use Rattle.formula_trees.specs.Pieces.{more_of};
ghost use Rattle.formula_trees.specs.declared.token.Token.{Token as AToken};
ghost use Rattle.formula_trees.specs.declared.lex_fault.LexFault.{LexFault as AFault};

use crate::lex_fault::LexFault;
use crate::piece::{Piece, find_piece};
use crate::token::Token;
use bt_base::Fail;
use std::alloc::Global;

/// The tokens of a formula's text in their order, or its first fault. Spaces, tabs, CR and LF separate tokens, and `//` begins a
/// comment that ends with its line. A name is a `$` that may be left out, a letter, then letters, digits and `_`; a number
/// is digits, and a point and digits that may be left out; a string is any bytes but `"` and LF between two `"`.
pub fn lex(alloc: Global, text: &str) -> Result<Vec<Token>, Fail<LexFault>>
    ensures { GivesAs (λ tokens. tokens.items) result (lexed text.now) }
{
    let bytes = text.as_bytes();
    let mut tokens = Vec::new(alloc);
    let mut at = 0;
    'pieces: while at < bytes.len() {
        let found = find_piece(at, bytes[at], &bytes[at + 1..]);
        match take(&mut tokens, at, found) {
            Ok(more) => at = at + 1 + more,
            Err(fail) => return Err(fail),
        }
    }
    Ok(tokens)
}

/// Adds the token at a place, if it is one, and returns the number of its bytes after the first.
fn take(tokens: &mut Vec<Token>, at: usize, found: Piece) -> Result<usize, Fail<LexFault>>
    requires { at + 1 + more_of found < 2 ^ 64 }
    ensures { (go : ℕ → Result (List AToken) AFault) → Takes tokens.old.items tokens.new.items at found go result }
{
    match found {
        Piece::Gap(more) => Ok(more),
        Piece::Lexeme(kind, more) => {
            tokens.push(Token {
                kind,
                from: at,
                to: at + 1 + more,
            })?;
            Ok(more)
        }
        Piece::Wrong(fault) => Err(Fail::Why(fault)),
    }
}
