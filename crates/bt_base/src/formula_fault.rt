//! Faults of a formula's text.
ghost use Rattle.std.specs.Prelude.{◌≡◌};
ghost use Rattle.bt_base.specs.FormulaFaults.{place_of, name_of};

/// The first fault of an autoscale formula's text, with its place, which counts the text's bytes from 0 (this project's
/// profile).
#[derive(Clone, Copy, PartialEq, Eq, Debug)]
pub enum FormulaFault {
    /// No token begins with this byte.
    BadCharacter(usize),
    /// The string that begins with this quote has no end on its line.
    OpenString(usize),
    /// The number that begins here is greater than 10^12 once it is cut off after its sixth decimal.
    NumberTooLarge(usize),
    /// The token at this place cannot follow those before it, or a token is missing at the end of the text.
    UnexpectedToken(usize),
    /// No variable of this name is set before it is read here, or there is no such function, method or member.
    UnknownName(usize),
    /// The operands, branches or items do not go together here, or the name that is set here had another type.
    TypeMismatch(usize),
    /// The metric, constant or function here cannot be set.
    ReadOnly(usize),
    /// The function or method here does not take these arguments.
    WrongArguments(usize),
    /// The token at this place would open one mark too many.
    TooDeep(usize),
}

impl FormulaFault {
    /// The fault's name.
    pub fn name(self) -> &'static str
        ensures { result.now ≡ name_of self }
    {
        match self {
            FormulaFault::BadCharacter(_) => "BadCharacter",
            FormulaFault::OpenString(_) => "OpenString",
            FormulaFault::NumberTooLarge(_) => "NumberTooLarge",
            FormulaFault::UnexpectedToken(_) => "UnexpectedToken",
            FormulaFault::UnknownName(_) => "UnknownName",
            FormulaFault::TypeMismatch(_) => "TypeMismatch",
            FormulaFault::ReadOnly(_) => "ReadOnly",
            FormulaFault::WrongArguments(_) => "WrongArguments",
            FormulaFault::TooDeep(_) => "TooDeep",
        }
    }

    /// The fault's place, in bytes of the text from 0.
    pub fn place(self) -> usize
        ensures { result ≡ place_of self }
    {
        match self {
            FormulaFault::BadCharacter(place)
            | FormulaFault::OpenString(place)
            | FormulaFault::NumberTooLarge(place)
            | FormulaFault::UnexpectedToken(place)
            | FormulaFault::UnknownName(place)
            | FormulaFault::TypeMismatch(place)
            | FormulaFault::ReadOnly(place)
            | FormulaFault::WrongArguments(place)
            | FormulaFault::TooDeep(place) => place,
        }
    }
}
