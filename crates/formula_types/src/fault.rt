//! Why a text is not a formula.
ghost use Rattle.std.specs.Prelude.{◌≡◌};
ghost use Rattle.formula_types.specs.Compiled.{of_lexical, of_syntax, of_type};

pub use bt_base::FormulaFault;
use formula_trees::{LexFault, SyntaxFault};

/// The first fault of a formula's types, with its place, which counts the text's bytes from 0.
#[derive(Clone, Copy, PartialEq, Eq, Debug)]
pub enum TypeFault {
    /// No variable of this name is set before it is read here, or there is no such function, method or member.
    UnknownName(usize),
    /// The operands, branches or items do not go together here, or the name that is set here had another type.
    TypeMismatch(usize),
    /// The metric, constant or function here cannot be set.
    ReadOnly(usize),
    /// The function or method here does not take these arguments.
    WrongArguments(usize),
}

pub fn of_lexical(fault: LexFault) -> FormulaFault
    ensures { result ≡ of_lexical fault }
{
    match fault {
        LexFault::BadCharacter(place) => FormulaFault::BadCharacter(place),
        LexFault::OpenString(place) => FormulaFault::OpenString(place),
        LexFault::NumberTooLarge(place) => FormulaFault::NumberTooLarge(place),
    }
}

pub fn of_syntax(fault: SyntaxFault) -> FormulaFault
    ensures { result ≡ of_syntax fault }
{
    match fault {
        SyntaxFault::UnexpectedToken(place) => FormulaFault::UnexpectedToken(place),
        SyntaxFault::TooDeep(place) => FormulaFault::TooDeep(place),
    }
}

pub fn of_type(fault: TypeFault) -> FormulaFault
    ensures { result ≡ of_type fault }
{
    match fault {
        TypeFault::UnknownName(place) => FormulaFault::UnknownName(place),
        TypeFault::TypeMismatch(place) => FormulaFault::TypeMismatch(place),
        TypeFault::ReadOnly(place) => FormulaFault::ReadOnly(place),
        TypeFault::WrongArguments(place) => FormulaFault::WrongArguments(place),
    }
}
