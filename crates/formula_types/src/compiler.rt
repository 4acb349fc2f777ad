//! From a text to its formula, or to its first fault.
ghost use Rattle.std.specs.Prelude.{◌≡◌, ◌⊎◌, ℕ, List, Ok, IfOk, true};
ghost use Rattle.formula_trees.specs.Lexing.{lexed};
ghost use Rattle.formula_trees.specs.declared.token.Token.{Token as AToken};
ghost use Rattle.formula_trees.specs.Formula.{StatementTree};
ghost use Rattle.formula_trees.specs.View.{statements_of};
ghost use Rattle.bt_base.specs.Fails.{GivesAs};
ghost use Rattle.bt_base.specs.declared.formula_fault.FormulaFault.{FormulaFault as AFault};
ghost use Rattle.formula_types.specs.Compiled.{OrFault, IsRead, IsFormula, HasFault, have_types};
ghost use Rattle.formula_types.specs.Compiling.{compiled, ComputesFormulas};

use crate::fault::{FormulaFault, of_lexical, of_syntax, of_type};
use crate::formula::Formula;
use crate::statement::check;
use bt_base::{Fail, NoMemory, Text};
use formula_syntax::parse;
use formula_trees::{Statement, Token, lex};
use std::alloc::Global;

/// The tokens of a text.
fn tokens(alloc: Global, text: &str) -> Result<Vec<Token>, Fail<FormulaFault>>
    ensures { OrFault text.now (λ tokens. lexed text.now ≡ Ok tokens.items) result }
{
    match lex(alloc, text) {
        Ok(tokens) => Ok(tokens),
        Err(Fail::Memory) => Err(Fail::Memory),
        Err(Fail::Why(fault)) => Err(Fail::Why(of_lexical(fault))),
    }
}

/// The statements of these tokens of a text.
fn statements(
    alloc: Global,
    text: &str,
    tokens: &[Token],
) -> Result<Vec<Statement>, Fail<FormulaFault>>
    requires { lexed text.now ≡ Ok tokens.now }
    ensures { OrFault text.now (λ statements. IsRead text.now tokens.now (statements_of statements.items)) result }
{
    match parse(alloc, text, tokens) {
        Ok(statements) => Ok(statements),
        Err(Fail::Memory) => Err(Fail::Memory),
        Err(Fail::Why(fault)) => Err(Fail::Why(of_syntax(fault))),
    }
}

/// Finds the first fault of the statements' types.
fn types(alloc: Global, text: &str, statements: &[Statement]) -> Result<(), Fail<FormulaFault>>
    ensures typed { IfOk result (λ _. have_types text.now (statements_of statements.now) ≡ true) }
    ensures fault { (tokens : List AToken) → IsRead text.now tokens (statements_of statements.now) → OrFault text.now (λ _. Unit {0}) result }
{
    match check(alloc, text.as_bytes(), statements) {
        Ok(_) => Ok(()),
        Err(Fail::Memory) => Err(Fail::Memory),
        Err(Fail::Why(fault)) => Err(Fail::Why(of_type(fault))),
    }
}

/// A copy of the text.
fn copied(alloc: Global, text: &str) -> Result<Text, NoMemory>
    ensures { IfOk result (λ copy. copy ≡ text.now) }
{
    Text::of_string(String::from_str(alloc, text)?)
}

/// The formula of a text that is read as these statements.
fn formula(
    alloc: Global,
    text: &str,
    statements: Vec<Statement>,
) -> Result<Formula, Fail<FormulaFault>>
    ensures { (tokens : List AToken) → IsRead text.now tokens (statements_of statements.items) → OrFault text.now (λ formula. (formula.text ≡ text.now) × IsFormula text.now (statements_of formula.statements.items)) result }
{
    types(alloc, text, &statements)?;
    let text = copied(alloc, text)?;
    Ok(Formula { text, statements })
}

/// Compiles a text to a formula. The error is the text's first fault, or out of memory. The whole text is lexed first, then it is
/// parsed, then its statements get their types one by one.
#[tactic(auto, using(crate::proofs::Computes::gives_computed))]
pub fn compile(alloc: Global, text: &str) -> Result<Formula, Fail<FormulaFault>>
    ensures formula { OrFault text.now (λ formula. (formula.text ≡ text.now) × IsFormula text.now (statements_of formula.statements.items)) result }
    ensures computed { GivesAs (λ formula. statements_of formula.statements.items) result (compiled text.now) }
{
    let tokens = tokens(alloc, text)?;
    let statements = statements(alloc, text, &tokens)?;
    formula(alloc, text, statements)
}

/// A text is exactly one formula, or it has exactly one first fault.
pub fn one_answer()
    ensures formula_or_fault { (text : List ℕ) → ((ss : List StatementTree) × IsFormula text ss) ⊎ ((fault : AFault) × HasFault text fault) }
    ensures not_both { (text : List ℕ) (ss : List StatementTree) (fault : AFault) → IsFormula text ss → HasFault text fault → ⊥ }
    ensures one_formula { (text : List ℕ) (ss other : List StatementTree) → IsFormula text ss → IsFormula text other → ss ≡ other }
    ensures one_fault { (text : List ℕ) (fault other : AFault) → HasFault text fault → HasFault text other → fault ≡ other }
{}

/// What `compiled` computes of a text is its formula, or its first fault.
pub fn compiled_is_the_formula()
    ensures { ComputesFormulas }
{}
