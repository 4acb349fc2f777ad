//! Tokens of a formula.
ghost use Rattle.std.specs.Prelude.{◌≡◌};
ghost use Rattle.formula_trees.specs.Spans.{span_of};

use bt_base::Num;

/// A part of a text: the bytes from the place `from`, without the one at `to`. Places count from 0.
#[derive(Clone, Copy, PartialEq, Eq, Debug)]
pub struct Span {
    /// The place of its first byte.
    pub from: usize,
    /// The place after its last byte.
    pub to: usize,
}

/// A binary operator.
#[derive(Clone, Copy, PartialEq, Eq, Debug)]
pub enum BinaryOperator {
    Or,
    And,
    Equal,
    NotEqual,
    Less,
    AtMost,
    Greater,
    AtLeast,
    Add,
    Subtract,
    Multiply,
    Divide,
}

/// What a token is.
#[derive(Clone, Copy, PartialEq, Eq, Debug)]
pub enum Kind {
    /// A number, cut after its sixth decimal.
    Number(Num),
    /// A string with its two quotes.
    Text,
    /// A name, with its `$` if it has one.
    Name,
    /// An operator between two operands. `-` is `Subtract` also where it negates.
    Infix(BinaryOperator),
    /// `!`
    Bang,
    /// `?`
    Question,
    /// `:`
    Colon,
    /// `,`
    Comma,
    /// `;`
    Semicolon,
    /// `=`
    Assign,
    /// `.`
    Dot,
    /// `(`
    OpenGroup,
    /// `)`
    CloseGroup,
    /// `[`
    OpenList,
    /// `]`
    CloseList,
}

/// A token, and the part of the text that it is.
#[derive(Clone, Copy, PartialEq, Eq, Debug)]
pub struct Token {
    /// What it is.
    pub kind: Kind,
    /// The place of its first byte, from 0.
    pub from: usize,
    /// The place after its last byte.
    pub to: usize,
}

impl Token {
    /// The part of the text that the token is.
    pub fn span(self) -> Span
        ensures { result ≡ span_of self }
    {
        Span {
            from: self.from,
            to: self.to,
        }
    }
}
