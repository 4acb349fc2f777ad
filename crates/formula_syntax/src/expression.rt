//! From tokens to the tree of an expression, in one pass with a stack.
ghost use Rattle.std.specs.Prelude.{◌≡◌, ◌∷◌, ◌↔◌, true, false, IfOk, IsTrue, MatchOption};
ghost use Rattle.formula_trees.specs.Spans.{span_of};
ghost use Rattle.formula_trees.specs.Grammar.{level_of};
ghost use Rattle.formula_syntax.specs.Parser.{close as closed, begin as begun, begin_first as begun_first, act as acted, act_on, strength, step as stepped, select as selected, bare as bared, applied, grips, joined, on_comma, on_colon, on_close_group, on_close_list, no_arguments, no_items_in};
ghost use Rattle.formula_syntax.specs.Parser as parser;
ghost use Rattle.formula_trees.specs.Tree.{Numeral, Vector, more};
ghost use Rattle.formula_trees.specs.View.{tree_of, trees_of};
ghost use Rattle.formula_syntax.specs.Frames.{callee_of, frame_of};
ghost use Rattle.formula_syntax.specs.Stacks.{stack_of};
ghost use Rattle.bt_base.specs.declared.fail.Fail.TheVariants.{Why};
ghost use Rattle.formula_trees.specs.declared.fault.SyntaxFault.TheVariants.{UnexpectedToken};
ghost use Rattle.formula_syntax.specs.States.{Takes, state_of, CompletesLast};

use crate::stack::{Callee, Frame, Stack};
use bt_base::{Fail, Num};
use formula_trees::{BinaryOperator, Expr, Kind, Span, SyntaxFault, Token, UnaryOperator};
use std::alloc::{AllocError, Global};

/// The place in an expression: where an operand has to begin, where the first item or none may follow, after a name, after an operand,
/// or after a dot.
#[derive(Drop)]
pub enum Position {
    Want,
    First,
    Named(Callee),
    Have(Expr),
    Dotted(Expr),
}

// How strongly an operator binds.
fn level(operator: BinaryOperator) -> u8
    ensures { result ≡ level_of operator }
{
    match operator {
        BinaryOperator::Or => 1,
        BinaryOperator::And => 2,
        BinaryOperator::Equal | BinaryOperator::NotEqual => 3,
        BinaryOperator::Less
        | BinaryOperator::AtMost
        | BinaryOperator::Greater
        | BinaryOperator::AtLeast => 4,
        BinaryOperator::Add | BinaryOperator::Subtract => 5,
        BinaryOperator::Multiply | BinaryOperator::Divide => 6,
    }
}

// Whether an operand of this level completes a frame.
fn is_complete(frame: &Frame, least: u8) -> bool
    ensures { result ≡ grips least (frame_of frame.now) }
{
    match frame {
        Frame::Unary(_, _) => least <= 7,
        Frame::Binary(operator, _, _) => least <= level(*operator),
        Frame::Colon(_, _, _) => least == 0,
        Frame::Group | Frame::Call(_, _) | Frame::Items(_, _) | Frame::Question(_, _) => false,
    }
}

// A frame with its last operand.
fn join(alloc: Global, frame: Frame, operand: Expr) -> Result<Expr, AllocError>
    ensures { IfOk result (λ t. tree_of t ≡ joined (frame_of frame) (tree_of operand)) }
{
    match frame {
        Frame::Unary(operator, span) => Ok(Expr::Unary(operator, span, Box::new(alloc, operand)?)),
        Frame::Binary(operator, span, left) => {
            let left = Box::new(alloc, left)?;
            let right = Box::new(alloc, operand)?;
            Ok(Expr::Binary(operator, span, left, right))
        }
        Frame::Colon(span, condition, yes) => {
            let condition = Box::new(alloc, condition)?;
            let yes = Box::new(alloc, yes)?;
            let no = Box::new(alloc, operand)?;
            Ok(Expr::Ternary(span, condition, yes, no))
        }
        Frame::Group => Ok(operand),
        Frame::Call(_, _) => Ok(operand),
        Frame::Items(_, _) => Ok(operand),
        Frame::Question(_, _) => Ok(operand),
    }
}

// Whether the last frame is complete with an operand of this level.
fn is_last_complete(stack: &Stack, least: u8) -> bool
    ensures { IsTrue result ↔ CompletesLast least (stack_of stack.now) }
{
    match stack.last() {
        Some(frame) => is_complete(frame, least),
        None => false,
    }
}

// Closes what is open, of this level and of stronger ones.
pub(crate) fn close(
    alloc: Global,
    stack: &mut Stack,
    least: u8,
    operand: Expr,
) -> Result<Expr, AllocError>
    ensures { IfOk result (λ t. closed least (stack_of stack.old) (tree_of operand) ≡ (stack_of stack.new, tree_of t)) }
{
    let mut tree = operand;
    'closing: while is_last_complete(stack, least) {
        match stack.pop() {
            Some(frame) => tree = join(alloc, frame, tree)?,
            None => return Ok(tree),
        }
    }
    Ok(tree)
}

// The tree of a name.
pub(crate) fn bare(alloc: Global, callee: Callee) -> Result<Expr, AllocError>
    ensures { IfOk result (λ t. tree_of t ≡ bared (callee_of callee)) }
{
    match callee {
        Callee::Free(span) => Ok(Expr::Name(span)),
        Callee::Of(operand, span) => Ok(Expr::Member(Box::new(alloc, operand)?, span)),
    }
}

// The tree of a call.
fn apply(alloc: Global, callee: Callee, arguments: Vec<Expr>) -> Result<Expr, AllocError>
    ensures { IfOk result (λ t. tree_of t ≡ applied (callee_of callee) (trees_of arguments.items)) }
{
    match callee {
        Callee::Free(span) => Ok(Expr::Call(span, arguments)),
        Callee::Of(operand, span) => Ok(Expr::Method(Box::new(alloc, operand)?, span, arguments)),
    }
}

// A list of items.
fn list(span: Span, items: Vec<Expr>) -> Expr
    ensures { tree_of result ≡ Vector span (trees_of items.items) }
{
    Expr::List(span, items)
}

// One item more.
fn with_item(mut items: Vec<Expr>, item: Expr) -> Result<Vec<Expr>, AllocError>
    ensures { IfOk result (λ v. trees_of v.items ≡ more (trees_of items.items) (tree_of item)) }
{
    items.push(item)?;
    Ok(items)
}

// The fault of a token that is not taken.
fn unexpected(span: Span) -> Result<Position, Fail<SyntaxFault>>
    ensures { result ≡ Err (Why (UnexpectedToken span.from)) }
{
    Err(Fail::Why(SyntaxFault::UnexpectedToken(span.from)))
}

// Opens one more, where an operand has to follow.
fn open(stack: &mut Stack, frame: Frame, span: Span) -> Result<Position, Fail<SyntaxFault>>
    ensures { Takes (stack_of stack.new) result span (Some (parser.Want (frame_of frame ∷ stack_of stack.old))) }
{
    stack.push(frame)?;
    Ok(Position::Want)
}

// The `:` of a ternary.
fn colon(stack: &mut Stack, yes: Expr, span: Span) -> Result<Position, Fail<SyntaxFault>>
    ensures { Takes (stack_of stack.new) result span (on_colon span (stack_of stack.old) (tree_of yes)) }
{
    match stack.pop() {
        Some(Frame::Question(mark, condition)) => open(
            stack,
            Frame::Colon(mark, condition, yes),
            span,
        ),
        _ => unexpected(span),
    }
}

// A `,` after an item.
fn comma(stack: &mut Stack, item: Expr, span: Span) -> Result<Position, Fail<SyntaxFault>>
    ensures { Takes (stack_of stack.new) result span (on_comma (stack_of stack.old) (tree_of item)) }
{
    match stack.pop() {
        Some(Frame::Call(callee, items)) => {
            let items = with_item(items, item)?;
            open(stack, Frame::Call(callee, items), span)
        }
        Some(Frame::Items(mark, items)) => {
            let items = with_item(items, item)?;
            open(stack, Frame::Items(mark, items), span)
        }
        _ => unexpected(span),
    }
}

// A `)` after an operand.
fn close_group(
    alloc: Global,
    stack: &mut Stack,
    operand: Expr,
    span: Span,
) -> Result<Position, Fail<SyntaxFault>>
    ensures { Takes (stack_of stack.new) result span (on_close_group (stack_of stack.old) (tree_of operand)) }
{
    match stack.pop() {
        Some(Frame::Group) => Ok(Position::Have(operand)),
        Some(Frame::Call(callee, items)) => {
            let items = with_item(items, operand)?;
            let call = apply(alloc, callee, items)?;
            Ok(Position::Have(call))
        }
        _ => unexpected(span),
    }
}

// A `]` after an item.
fn close_list(stack: &mut Stack, item: Expr, span: Span) -> Result<Position, Fail<SyntaxFault>>
    ensures { Takes (stack_of stack.new) result span (on_close_list (stack_of stack.old) (tree_of item)) }
{
    match stack.pop() {
        Some(Frame::Items(mark, items)) => {
            let items = with_item(items, item)?;
            Ok(Position::Have(list(mark, items)))
        }
        _ => unexpected(span),
    }
}

// A number.
fn number(value: Num, span: Span) -> Result<Position, Fail<SyntaxFault>>
    ensures { (s : parser.Stack) → Takes s result span (Some (parser.Have s (Numeral value span))) }
{
    Ok(Position::Have(Expr::Number(value, span)))
}

// The beginning of an operand.
fn begin(alloc: Global, stack: &mut Stack, token: Token) -> Result<Position, Fail<SyntaxFault>>
    ensures { Takes (stack_of stack.new) result (span_of token) (begun (stack_of stack.old) token.kind (span_of token)) }
{
    let kind = token.kind;
    let span = token.span();
    match &kind {
        Kind::Number(value) => number(*value, span),
        Kind::Text => Ok(Position::Have(Expr::Text(span))),
        Kind::Name => Ok(Position::Named(Callee::Free(span))),
        Kind::Infix(BinaryOperator::Subtract) => open(
            stack,
            Frame::Unary(UnaryOperator::Negate, span),
            span,
        ),
        Kind::Bang => open(stack, Frame::Unary(UnaryOperator::Invert, span), span),
        Kind::OpenGroup => open(stack, Frame::Group, span),
        Kind::OpenList => {
            stack.push(Frame::Items(span, Vec::new(alloc)))?;
            Ok(Position::First)
        }
        _ => unexpected(span),
    }
}

// The end of a call without arguments.
fn end_call(alloc: Global, stack: &mut Stack, span: Span) -> Result<Position, Fail<SyntaxFault>>
    ensures { Takes (stack_of stack.new) result span (no_arguments (stack_of stack.old)) }
{
    match stack.pop() {
        Some(Frame::Call(callee, none)) => {
            let call = apply(alloc, callee, none)?;
            Ok(Position::Have(call))
        }
        _ => unexpected(span),
    }
}

// The end of a list without items.
fn end_list(stack: &mut Stack, span: Span) -> Result<Position, Fail<SyntaxFault>>
    ensures { Takes (stack_of stack.new) result span (no_items_in (stack_of stack.old)) }
{
    match stack.pop() {
        Some(Frame::Items(mark, none)) => Ok(Position::Have(list(mark, none))),
        _ => unexpected(span),
    }
}

// The first argument or item, or the end of none.
fn begin_first(
    alloc: Global,
    stack: &mut Stack,
    token: Token,
) -> Result<Position, Fail<SyntaxFault>>
    ensures { Takes (stack_of stack.new) result (span_of token) (begun_first (stack_of stack.old) token.kind (span_of token)) }
{
    match token.kind {
        Kind::CloseGroup => end_call(alloc, stack, token.span()),
        Kind::CloseList => end_list(stack, token.span()),
        _ => begin(alloc, stack, token),
    }
}

// A token after an operand.
fn follow(
    alloc: Global,
    stack: &mut Stack,
    operand: Expr,
    token: Token,
) -> Result<Position, Fail<SyntaxFault>>
    ensures { Takes (stack_of stack.new) result (span_of token) (act_on (closed (strength token.kind) (stack_of stack.old) (tree_of operand)) token.kind (span_of token)) }
{
    let kind = token.kind;
    let span = token.span();
    match kind {
        Kind::Infix(operator) => {
            let left = close(alloc, stack, level(operator), operand)?;
            open(stack, Frame::Binary(operator, span, left), span)
        }
        Kind::Question => {
            let condition = close(alloc, stack, 1, operand)?;
            open(stack, Frame::Question(span, condition), span)
        }
        Kind::Dot => {
            let operand = close(alloc, stack, 8, operand)?;
            Ok(Position::Dotted(operand))
        }
        Kind::Colon => {
            let yes = close(alloc, stack, 0, operand)?;
            colon(stack, yes, span)
        }
        Kind::Comma => {
            let item = close(alloc, stack, 0, operand)?;
            comma(stack, item, span)
        }
        Kind::CloseGroup => {
            let operand = close(alloc, stack, 0, operand)?;
            close_group(alloc, stack, operand, span)
        }
        Kind::CloseList => {
            let item = close(alloc, stack, 0, operand)?;
            close_list(stack, item, span)
        }
        _ => unexpected(span),
    }
}

// One token of an expression.
pub(crate) fn step(
    alloc: Global,
    stack: &mut Stack,
    position: Position,
    token: Token,
) -> Result<Position, Fail<SyntaxFault>>
    ensures { Takes (stack_of stack.new) result (span_of token) (stepped (state_of (stack_of stack.old) position) token.kind (span_of token)) }
{
    match position {
        Position::Want => begin(alloc, stack, token),
        Position::First => begin_first(alloc, stack, token),
        Position::Named(callee) => after_name(alloc, stack, callee, token),
        Position::Have(operand) => follow(alloc, stack, operand, token),
        Position::Dotted(operand) => select(operand, stack, token),
    }
}

// A token after a name.
fn after_name(
    alloc: Global,
    stack: &mut Stack,
    callee: Callee,
    token: Token,
) -> Result<Position, Fail<SyntaxFault>>
    ensures { Takes (stack_of stack.new) result (span_of token) (stepped (parser.Named (stack_of stack.old) (callee_of callee)) token.kind (span_of token)) }
{
    match token.kind {
        Kind::OpenGroup => {
            stack.push(Frame::Call(callee, Vec::new(alloc)))?;
            Ok(Position::First)
        }
        _ => {
            let operand = bare(alloc, callee)?;
            follow(alloc, stack, operand, token)
        }
    }
}

// The name after a dot.
fn select(operand: Expr, stack: &Stack, token: Token) -> Result<Position, Fail<SyntaxFault>>
    ensures { Takes (stack_of stack.now) result (span_of token) (selected (stack_of stack.now) (tree_of operand) token.kind (span_of token)) }
{
    match token.kind {
        Kind::Name => Ok(Position::Named(Callee::Of(operand, token.span()))),
        _ => unexpected(token.span()),
    }
}
