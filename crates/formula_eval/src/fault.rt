//! Why a formula has no results.
ghost use Rattle.std.specs.Prelude.{◌≡◌};
ghost use Rattle.formula_values.specs.Faults.{fault_name};

use bt_base::Fail;
use formula_trees::Span;
use formula_values::ValueFault;

/// The first fault of a formula's evaluation, with its place, which counts the text's bytes from 0: that of the operator, of the name
/// of the function, method or metric, or of the name that is set.
#[derive(Clone, Copy, Debug, PartialEq, Eq)]
pub struct EvalFault {
    /// What is wrong.
    pub fault: ValueFault,
    /// Where, in bytes from the beginning of the text.
    pub place: usize,
}

impl EvalFault {
    /// The fault's name. It does not allocate.
    pub fn name(self) -> &'static str
        ensures { result.now ≡ fault_name self.fault }
    {
        self.fault.name()
    }

    /// The fault's place. It does not allocate.
    pub fn place(self) -> usize
        ensures { result ≡ self.place }
    {
        self.place
    }
}

/// What ends the evaluation of an expression without a value.
#[derive(Clone, Copy, Debug, PartialEq, Eq)]
pub enum Interrupt {
    /// `stop()`
    Stop,
    Fault(EvalFault),
}
