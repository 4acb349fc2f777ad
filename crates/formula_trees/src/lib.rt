//! The tokens, the names and the trees of formulas. `specs/Lexing.antt` says which tokens a text has, `specs/Names.antt` what each name is,
//! `specs/Grammar.antt` and `specs/Formula.antt` which tokens are which tree, and `specs/Table.antt` which token is the first that cannot be
//! at its place.
#![tactic(auto)]

mod fault;
mod lex_fault;
mod lexer;
mod literal;
mod marks;
mod names;
mod operators;
mod piece;
mod run;
mod signatures;
mod token;
mod tree;
mod value_types;

pub use bt_base::Metric;
pub use fault::{DEEPEST, SyntaxFault};
pub use lex_fault::LexFault;
pub use lexer::lex;
pub use names::{
    Function, Member, Method, Setting, fixed_type, function_named, interval_named, is_option_word,
    is_read_only, member_named, method_named, metric_named, setting_named, setting_type,
};
pub use operators::{binary_type, common_type, ternary_type, unary_type};
pub use signatures::{
    are_doubles, function_result, function_takes, is_double, is_timestamp, method_result,
    method_takes,
};
pub use token::{BinaryOperator, Kind, Span, Token};
pub use tree::{Expr, Statement, UnaryOperator};
pub use value_types::{ExprType, ValueType};
