//! Parts of a formula's text, and the variables that it sets.
ghost use Rattle.std.specs.Prelude.{◌≡◌, OnOk};
ghost use Rattle.formula_types.specs.Scopes.{part, nothing, name_type, with_variable};

use bt_base::NoMemory;
use formula_trees::{Span, ValueType, fixed_type};
use std::alloc::Global;
use std::collections::BTreeMap;

/// The formula's own variables that are set so far, each with the type of its first setting. A look-up among n of them takes about
/// log n comparisons.
#[derive(Drop)]
pub struct Scope<'a> {
    types: BTreeMap<&'a [u8], ValueType>,
}

/// A part of a text. It does not allocate.
pub fn part(text: &[u8], span: Span) -> &[u8]
    ensures { result.now ≡ part text.now span }
{
    let rest = &text[span.from.min(text.len())..];
    let length = span.to.saturating_sub(span.from);
    &rest[..length.min(rest.len())]
}

impl<'a> Scope<'a> {
    ghost use Rattle.formula_types.specs.View.{types_in};

    /// No variables. It does not allocate.
    #[tactic(auto, unfolding(crate::specs::View::types_in))]
    pub fn new(alloc: Global) -> Scope<'a>
        ensures { types_in result ≡ nothing }
    {
        Scope {
            types: BTreeMap::new(alloc),
        }
    }

    /// The type of a name, if it has one: of the language's own names, and of variables that are set. It does not allocate.
    #[tactic(auto, unfolding(crate::specs::View::types_in))]
    pub fn name_type(&self, name: &[u8]) -> Option<ValueType>
        ensures { result ≡ name_type (types_in self.now) name.now }
    {
        match fixed_type(name) {
            Some(value) => Some(value),
            None => self.types.get(name).copied(),
        }
    }

    /// Sets the type of a variable.
    pub fn set(&mut self, name: &'a [u8], value: ValueType) -> Result<(), NoMemory>
        ensures { OnOk result (types_in self.new ≡ with_variable (types_in self.old) name.now value) }
    {
        self.types.insert(name, value)?;
        Ok(())
    }
}
