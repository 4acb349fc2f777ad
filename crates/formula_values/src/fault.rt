//! Why an operator, a function or a method has no result.
ghost use Rattle.std.specs.Prelude.{◌≡◌};
ghost use Rattle.formula_values.specs.Faults.{fault_name};

use bt_base::{Num, NumFault};

/// Why an expression has no value.
#[derive(Clone, Copy, Debug, PartialEq, Eq)]
pub enum ValueFault {
    /// The divisor is zero.
    DivideByZero,
    /// The magnitude of the number passes 10^12.
    TooLarge,
    /// There is no item to take, or no sample.
    EmptyVector,
    /// No item has this index, the percentile is not from 0 to 100, or the number of samples that is asked for is below 0.
    IndexOutOfRange,
    /// Two vectors that go together item by item have different numbers of items.
    LengthsDiffer,
    /// The percentage of samples that exist is below the one that is asked for: the first of these is below the second.
    NotEnoughSamples(Num, Num),
    /// The target is below 0.
    NegativeTarget,
    /// The target is above the greatest one.
    TargetTooLarge,
    /// The text is not one of the four node deallocation options.
    NotAnOption,
    /// The text is not a time.
    BadTimeText,
    /// The timestamp is before 1970 or after the year 9999, or the timeinterval is longer than 3,650,000 days.
    TimeOutOfRange,
}

impl ValueFault {
    /// The fault's name. It does not allocate.
    pub fn name(self) -> &'static str
        ensures { result.now ≡ fault_name self }
    {
        match self {
            ValueFault::DivideByZero => "DivideByZero",
            ValueFault::TooLarge => "TooLarge",
            ValueFault::EmptyVector => "EmptyVector",
            ValueFault::IndexOutOfRange => "IndexOutOfRange",
            ValueFault::LengthsDiffer => "LengthsDiffer",
            ValueFault::NotEnoughSamples(_, _) => "NotEnoughSamples",
            ValueFault::NegativeTarget => "NegativeTarget",
            ValueFault::TargetTooLarge => "TargetTooLarge",
            ValueFault::NotAnOption => "NotAnOption",
            ValueFault::BadTimeText => "BadTimeText",
            ValueFault::TimeOutOfRange => "TimeOutOfRange",
        }
    }
}

impl From<NumFault> for ValueFault {
    ghost use Rattle.formula_values.specs.Values.{of_number};

    ghost from_gives = { λ fault result. result ≡ of_number fault };

    fn from(fault: NumFault) -> ValueFault {
        match fault {
            NumFault::DivideByZero => ValueFault::DivideByZero,
            NumFault::TooLarge => ValueFault::TooLarge,
            NumFault::NotANumber => ValueFault::TooLarge,
        }
    }
}
