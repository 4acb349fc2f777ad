//! Trees of expressions and statements.

use crate::token::{BinaryOperator, Span};
use bt_base::Num;

/// A unary operator.
#[derive(Clone, Copy, PartialEq, Eq, Debug)]
pub enum UnaryOperator {
    /// `-`
    Negate,
    /// `!`
    Invert,
}

/// An expression. Each node has the part of the text that is its token: its literal, its name, its operator or its `[`; a
/// ternary has its `?`.
pub enum Expr {
    Number(Num, Span),
    /// A string with its two quotes.
    Text(Span),
    Name(Span),
    Call(Span, Vec<Expr>),
    List(Span, Vec<Expr>),
    Member(Box<Expr>, Span),
    Method(Box<Expr>, Span, Vec<Expr>),
    Unary(UnaryOperator, Span, Box<Expr>),
    Binary(BinaryOperator, Span, Box<Expr>, Box<Expr>),
    /// The condition, the value if it is true, and the value if it is not.
    Ternary(Span, Box<Expr>, Box<Expr>, Box<Expr>),
}

impl Drop for Expr {
    // A chain of operators that group to the left can be as long as the text, so it is taken apart by a loop.
    fn drop(mut self) {
        loop {
            match self {
                Expr::Number(_, _) => return,
                Expr::Text(_) => return,
                Expr::Name(_) => return,
                Expr::Call(_, _) => return,
                Expr::List(_, _) => return,
                Expr::Member(operand, _) => self = Box::into_inner(operand),
                Expr::Method(operand, _, _) => self = Box::into_inner(operand),
                Expr::Unary(_, _, operand) => self = Box::into_inner(operand),
                Expr::Binary(_, _, left, _) => self = Box::into_inner(left),
                Expr::Ternary(_, condition, _, _) => self = Box::into_inner(condition),
            }
        }
    }
}

/// A statement: the name that is set and its value, or an expression whose value is dropped.
#[derive(Drop)]
pub enum Statement {
    Assign(Span, Expr),
    Expression(Expr),
}
