//! From the tokens of a formula to its statements.
ghost use Rattle.std.specs.Prelude.{◌≡◌, ◌⊎◌, ℕ, List, [], ◌∷◌, length, Some, None, IfOk, OnOk, Err};
ghost use Rattle.formula_trees.specs.declared.fault.SyntaxFault.{SyntaxFault as AFault};
ghost use Rattle.bt_base.specs.declared.fail.Fail.TheVariants.{Why as AWhy};
ghost use Rattle.formula_trees.specs.declared.fault.SyntaxFault.TheVariants.{UnexpectedToken, TooDeep};
ghost use Rattle.std.specs.Option.{option_map};
ghost use Rattle.formula_trees.specs.Spans.{span_of};
ghost use Rattle.formula_syntax.specs.Parser as parser;
ghost use Rattle.formula_syntax.specs.Whole as whole;
ghost use Rattle.formula_trees.specs.declared.token.Token.{Token as AToken};
ghost use Rattle.formula_trees.specs.Formula.{StatementTree as AStep, ReadsFormula};
ghost use Rattle.formula_syntax.specs.Parser.{depth_of, step as stepped, settled};
ghost use Rattle.formula_syntax.specs.Parser.{Have};
ghost use Rattle.formula_trees.specs.TheFormula.{IsTheFormula, fault_in};
ghost use Rattle.formula_syntax.specs.Stacks.{stack_of};
ghost use Rattle.formula_syntax.specs.States.{state_of};
ghost use Rattle.formula_trees.specs.View.{tree_of, statements_of};
ghost use Rattle.formula_syntax.specs.Whole.{begin_whole, lone_whole, inside_whole, ended_by, finished, depth_in, parsed, step_whole};
ghost use Rattle.formula_syntax.specs.Wholes.{AnswersParsed, Ends, TakesShallow, TakesWhole, target_of, whole_of};

use crate::expression::{Position, bare, close, step};
use crate::stack::{Callee, Stack};
use bt_base::Fail;
use formula_trees::{DEEPEST, Expr, Kind, Span, Statement, SyntaxFault, Token};
use std::alloc::{AllocError, Global};

/// The name that a statement sets.
#[derive(Clone, Copy, Debug)]
pub enum Target {
    Nowhere,
    Name(Span),
}

/// The part of a statement that is read: nothing, a name alone, or a part of an expression.
#[derive(Drop)]
pub enum Progress {
    Between,
    Lone(Span),
    Inside(Target, Stack, Position),
}

// How many marks are open.
fn depth(progress: &Progress) -> usize
    ensures { (done : List AStep) → result ≡ depth_in (whole_of done progress.now) }
{
    match progress {
        Progress::Between => 0,
        Progress::Lone(_) => 0,
        Progress::Inside(_, stack, _) => stack.depth(),
    }
}

// The end of a statement.
fn end(
    alloc: Global,
    statements: &mut Vec<Statement>,
    target: Target,
    mut stack: Stack,
    operand: Expr,
    place: usize,
) -> Result<(), Fail<SyntaxFault>>
    ensures { Ends (statements_of statements.new.items) result place (ended_by (statements_of statements.old.items) (target_of target) (settled 0 (Have (stack_of stack) (tree_of operand)))) }
{
    let tree = close(alloc, &mut stack, 0, operand)?;
    if stack.is_empty() {
        match target {
            Target::Nowhere => statements.push(Statement::Expression(tree))?,
            Target::Name(name) => statements.push(Statement::Assign(name, tree))?,
        }
        Ok(())
    } else {
        Err(Fail::Why(SyntaxFault::UnexpectedToken(place)))
    }
}

// The fault of a token that is not taken.
fn unexpected(place: usize) -> Result<Progress, Fail<SyntaxFault>>
    ensures { result ≡ Err (AWhy (UnexpectedToken place)) }
{
    Err(Fail::Why(SyntaxFault::UnexpectedToken(place)))
}

// A token of an expression.
fn advance(
    alloc: Global,
    target: Target,
    mut stack: Stack,
    position: Position,
    token: Token,
) -> Result<Progress, Fail<SyntaxFault>>
    ensures { (done : List AStep) → TakesWhole done result token.from (option_map (whole.Inside done (target_of target)) (stepped (state_of (stack_of stack) position) token.kind (span_of token))) }
{
    let position = step(alloc, &mut stack, position, token)?;
    Ok(Progress::Inside(target, stack, position))
}

// A `;` after an expression.
fn end_inside(
    alloc: Global,
    statements: &mut Vec<Statement>,
    target: Target,
    stack: Stack,
    position: Position,
    place: usize,
) -> Result<(), Fail<SyntaxFault>>
    ensures { Ends (statements_of statements.new.items) result place (ended_by (statements_of statements.old.items) (target_of target) (settled 0 (state_of (stack_of stack) position))) }
{
    match position {
        Position::Named(callee) => {
            let operand = bare(alloc, callee)?;
            end(alloc, statements, target, stack, operand, place)
        }
        Position::Have(operand) => end(alloc, statements, target, stack, operand, place),
        Position::Want => Err(Fail::Why(SyntaxFault::UnexpectedToken(place))),
        Position::First => Err(Fail::Why(SyntaxFault::UnexpectedToken(place))),
        Position::Dotted(_) => Err(Fail::Why(SyntaxFault::UnexpectedToken(place))),
    }
}

// The end of a statement that is a name alone.
fn end_lone(alloc: Global, statements: &mut Vec<Statement>, name: Span) -> Result<(), AllocError>
    ensures { OnOk result (ended_by (statements_of statements.old.items) whole.Nowhere (settled 0 (parser.Named [] (parser.Free name))) ≡ Some (statements_of statements.new.items)) }
{
    statements.push(Statement::Expression(Expr::Name(name)))?;
    Ok(())
}

// A token where a statement begins.
fn take_between(alloc: Global, token: Token) -> Result<Progress, Fail<SyntaxFault>>
    ensures { (done : List AStep) → TakesWhole done result token.from (begin_whole done token.kind (span_of token)) }
{
    match token.kind {
        Kind::Name => Ok(Progress::Lone(token.span())),
        _ => advance(
            alloc,
            Target::Nowhere,
            Stack::new(alloc),
            Position::Want,
            token,
        ),
    }
}

// A token after a name that begins a statement.
fn take_lone(
    alloc: Global,
    statements: &mut Vec<Statement>,
    name: Span,
    token: Token,
) -> Result<Progress, Fail<SyntaxFault>>
    ensures { TakesWhole (statements_of statements.new.items) result token.from (lone_whole (statements_of statements.old.items) name token.kind (span_of token)) }
{
    match token.kind {
        Kind::Assign => Ok(Progress::Inside(Target::Name(name), Stack::new(alloc), Position::Want)),
        Kind::Semicolon => {
            end_lone(alloc, statements, name)?;
            Ok(Progress::Between)
        }
        _ => advance(
            alloc,
            Target::Nowhere,
            Stack::new(alloc),
            Position::Named(Callee::Free(name)),
            token,
        ),
    }
}

// A token after the beginning of an expression.
fn take_inside(
    alloc: Global,
    statements: &mut Vec<Statement>,
    target: Target,
    stack: Stack,
    position: Position,
    token: Token,
) -> Result<Progress, Fail<SyntaxFault>>
    ensures { TakesWhole (statements_of statements.new.items) result token.from (inside_whole (statements_of statements.old.items) (target_of target) (state_of (stack_of stack) position) token.kind (span_of token)) }
{
    match token.kind {
        Kind::Semicolon => {
            end_inside(alloc, statements, target, stack, position, token.from)?;
            Ok(Progress::Between)
        }
        _ => advance(alloc, target, stack, position, token),
    }
}

// One token.
fn take(
    alloc: Global,
    statements: &mut Vec<Statement>,
    progress: Progress,
    token: Token,
) -> Result<Progress, Fail<SyntaxFault>>
    ensures { TakesWhole (statements_of statements.new.items) result token.from (step_whole (whole_of (statements_of statements.old.items) progress) token.kind (span_of token)) }
{
    match progress {
        Progress::Between => take_between(alloc, token),
        Progress::Lone(name) => take_lone(alloc, statements, name, token),
        Progress::Inside(target, stack, position) => take_inside(
            alloc, statements, target, stack, position, token,
        ),
    }
}

// The end of the text.
fn finish(
    alloc: Global,
    statements: &mut Vec<Statement>,
    progress: Progress,
    place: usize,
) -> Result<(), Fail<SyntaxFault>>
    ensures { Ends (statements_of statements.new.items) result place (finished (whole_of (statements_of statements.old.items) progress)) }
{
    match progress {
        Progress::Between => Ok(()),
        Progress::Lone(name) => {
            end_lone(alloc, statements, name)?;
            Ok(())
        }
        Progress::Inside(target, stack, position) => end_inside(
            alloc, statements, target, stack, position, place,
        ),
    }
}

// One token, which may be too deep.
fn take_shallow(
    alloc: Global,
    statements: &mut Vec<Statement>,
    progress: Progress,
    token: Token,
) -> Result<Progress, Fail<SyntaxFault>>
    ensures { TakesShallow (statements_of statements.new.items) result token.from (step_whole (whole_of (statements_of statements.old.items) progress) token.kind (span_of token)) }
{
    let place = token.from;
    let next = take(alloc, statements, progress, token)?;
    if depth(&next) > DEEPEST {
        Err(Fail::Why(SyntaxFault::TooDeep(place)))
    } else {
        Ok(next)
    }
}

// The statements of the tokens, added to an empty list.
fn read(
    alloc: Global,
    statements: &mut Vec<Statement>,
    tokens: &[Token],
    length: usize,
) -> Result<(), Fail<SyntaxFault>>
    requires { statements.old.items ≡ [] }
    ensures { AnswersParsed statements.new.items result (parsed length tokens.now (whole.Between [])) }
{
    let mut progress = Progress::Between;
    for token in tokens {
        match take_shallow(alloc, statements, progress, *token) {
            Ok(next) => progress = next,
            Err(error) => return Err(error),
        }
    }
    finish(alloc, statements, progress, length)
}

/// The statements of a formula, from the tokens of its text. The error is the formula's first fault, whose place counts the text's
/// bytes from 0, or out of memory.
pub fn parse(
    alloc: Global,
    text: &str,
    tokens: &[Token],
) -> Result<Vec<Statement>, Fail<SyntaxFault>>
    // The first fault by the table.
    ensures fault { (f : AFault) → result ≡ Err (AWhy f) → fault_in tokens.now (length text.now) ≡ Some f }
    // If it has none, the one reading by the grammar.
    ensures none { IfOk result (λ _. fault_in tokens.now (length text.now) ≡ None) }
    ensures reads { IfOk result (λ v. IsTheFormula tokens.now (statements_of v.items)) }
{
    let mut statements = Vec::new(alloc);
    match read(alloc, &mut statements, tokens, text.len()) {
        Ok(()) => Ok(statements),
        Err(error) => Err(error),
    }
}

/// A text without a fault has exactly one reading, and a text with a reading has no fault but that too many marks are open.
pub fn one_reading()
    ensures read { (tokens : List AToken) (length : ℕ) → fault_in tokens length ≡ None → (steps : List AStep) × IsTheFormula tokens steps }
    // What the grammar reads, the table takes, unless more than `DEEPEST` marks are open.
    ensures taken { (tokens : List AToken) (length : ℕ) (steps : List AStep) → ReadsFormula tokens steps →
        (fault_in tokens length ≡ None) ⊎ ((place : ℕ) × (fault_in tokens length ≡ Some (TooDeep place))) }
{}
