//! The types of statements.
ghost use Rattle.bt_base.specs.Fails.{GivesAs};
ghost use Rattle.formula_trees.specs.View.{statement_of, statements_of};
ghost use Rattle.formula_types.specs.Typing.{assigned, set_to, statement_typed, typed};
ghost use Rattle.formula_types.specs.View.{types_in};
ghost use Rattle.formula_trees.specs.declared.value_types.ExprType.TheVariants.{Value};
ghost use Rattle.formula_types.specs.Scopes.{nothing};

use crate::fault::TypeFault;
use crate::scope::{Scope, part};
use crate::typing::type_of;
use bt_base::Fail;
use formula_trees::{ExprType, Span, Statement, ValueType, common_type, is_read_only};
use std::alloc::Global;

/// Sets the name at this part of the text to a value of this type. Before, it has to have no value or one of that type.
fn set<'a>(
    scope: &mut Scope<'a>,
    span: Span,
    name: &'a [u8],
    before: Option<ValueType>,
    value: ValueType,
) -> Result<(), Fail<TypeFault>>
    ensures { GivesAs (λ _. types_in scope.new) result (set_to (types_in scope.old) span name.now before (Value value)) }
{
    match before {
        None => {
            scope.set(name, value)?;
            Ok(())
        }
        Some(before) => {
            if common_type(before, value).is_some() {
                Ok(())
            } else {
                Err(Fail::Why(TypeFault::TypeMismatch(span.from)))
            }
        }
    }
}

/// Sets the name at this part of the text, if it can be set.
fn assign<'a>(
    text: &'a [u8],
    scope: &mut Scope<'a>,
    span: Span,
    found: ExprType,
) -> Result<(), Fail<TypeFault>>
    ensures { GivesAs (λ _. types_in scope.new) result (assigned text.now (types_in scope.old) span found) }
{
    let name = part(text, span);
    if is_read_only(name) {
        return Err(Fail::Why(TypeFault::ReadOnly(span.from)));
    }
    match found {
        ExprType::Stop => Err(Fail::Why(TypeFault::TypeMismatch(span.from))),
        ExprType::Value(value) => {
            let before = scope.name_type(name);
            set(scope, span, name, before, value)
        }
    }
}

/// The types of a statement, after those before it.
fn take<'a>(
    alloc: Global,
    text: &'a [u8],
    scope: &mut Scope<'a>,
    statement: &Statement,
) -> Result<(), Fail<TypeFault>>
    ensures { GivesAs (λ _. types_in scope.new) result (statement_typed text.now (types_in scope.old) (statement_of statement.now)) }
{
    match statement {
        Statement::Assign(name, expr) => {
            let found = type_of(alloc, text, scope, expr)?;
            assign(text, scope, *name, found)
        }
        Statement::Expression(expr) => {
            type_of(alloc, text, scope, expr)?;
            Ok(())
        }
    }
}

/// The variables after the statements of a formula, or their first fault.
pub fn check<'a>(
    alloc: Global,
    text: &'a [u8],
    statements: &[Statement],
) -> Result<Scope<'a>, Fail<TypeFault>>
    ensures { GivesAs types_in result (typed text.now nothing (statements_of statements.now)) }
{
    let mut scope = Scope::new(alloc);
    for statement in statements {
        take(alloc, text, &mut scope, statement)?;
    }
    Ok(scope)
}
