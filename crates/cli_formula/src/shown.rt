//! The output of a formula.
ghost use Rattle.std.specs.Prelude.{◌≡◌, [], ◌∷◌, ◌++◌, Ok, Err, IfOk, string_bytes};
ghost use Rattle.byte_streams.specs.Content.{Gains, GainsFront};
ghost use Rattle.cli_formula.specs.Showing.{fault_at, results_line};
ghost use Rattle.cli_formula.specs.Shown.{shown_of};

use bt_base::{NoMemory, Text};
use formula_eval::{Outcome, error_text, results_text};
use std::alloc::Global;

/// The output of a formula, with the line's end.
#[derive(Drop)]
pub enum Shown {
    /// The results text.
    Results(Text),
    /// `error`, the fault's name and its place; and that place, an offset in bytes.
    Fault(Text, usize),
}

/// A text and a line's end.
fn line_of(alloc: Global, text: &Text) -> Result<String, NoMemory>
    ensures { IfOk result (λ line. string_bytes line ≡ text.now ++ 10 ∷ []) }
{
    let mut line = String::from_str(alloc, text.as_str())?;
    line.push('\n')?;
    Ok(line)
}

/// The output of the fault of this name at this place.
pub fn of_fault(alloc: Global, name: &str, place: usize) -> Result<Shown, NoMemory>
    ensures { IfOk result (λ shown. shown_of shown ≡ Err (fault_at name.now place)) }
{
    let line = line_of(alloc, &error_text(alloc, name, place)?)?;
    Ok(Shown::Fault(Text::of_string(line)?, place))
}

/// The output of these results.
pub fn of_outcome(alloc: Global, outcome: &Outcome) -> Result<Shown, NoMemory>
    ensures { IfOk result (λ shown. shown_of shown ≡ Ok (results_line outcome.now)) }
{
    let line = line_of(alloc, &results_text(alloc, outcome)?)?;
    Ok(Shown::Results(Text::of_string(line)?))
}
