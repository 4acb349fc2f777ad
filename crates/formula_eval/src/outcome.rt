//! What a formula sets.
ghost use Rattle.std.specs.Prelude.{◌≡◌, ◌<◌, [], ◌∷◌, ◌++◌, None, IfOk, OnErr, option_map, slice_set, vec_len};
ghost use Rattle.std.specs.List.{position};
ghost use Rattle.name_index.specs.Places.{ArePlaces};
ghost use Rattle.formula_eval.specs.Outcomes.{is_named, value_among, with_value};

use bt_base::{Dealloc, NoMemory, Text};
use formula_values::Value;
use name_index::NameIndex;
use std::alloc::Global;
use std::marker::Model;

/// The number of nodes that a pool is to have: dedicated ones, from 0 to 1,000, and low-priority ones, always 0.
#[derive(Clone, Copy, Debug, PartialEq, Eq)]
pub struct Targets {
    /// Dedicated nodes, 0 to 1,000 (Azure: $TargetDedicatedNodes).
    pub dedicated: u32,
    /// Nodes of low priority, 0 (Azure: $TargetLowPriorityNodes).
    pub low: u32,
}

/// A variable of the formula's own, and its value.
#[derive(Debug)]
pub struct Variable {
    /// The name, as the formula writes it.
    pub name: Text,
    /// The last value that was set.
    pub value: Value,
}

impl Drop for Variable {
    fn drop(self) {
        let Variable {
            name: _name,
            value: _value,
        } = self;
    }
}

/// Variables with different names, in the order of their first settings. Contracts see them as a list. A name is found through an
/// index, so that a look-up among n variables takes about log n comparisons.
#[derive(Debug)]
pub struct Variables {
    items: Vec<Variable>,
    places: NameIndex,
}

impl Drop for Variables {
    fn drop(self) {
        let Variables {
            items: _items,
            places: _places,
        } = self;
    }
}

impl Model for Variables {
    ghost use Rattle.std.specs.Prelude.{List as Items};
    ghost use Rattle.formula_eval.specs.declared.outcome.Variable.{Variable};

    ghost Value = { Items Variable };

    ghost view = { λ o. o.items.items };

    ghost use Rattle.name_index.specs.Places.{ArePlaces};
    ghost use Rattle.formula_eval.specs.Outcomes.{is_named};

    ghost invariant = { λ o. ArePlaces is_named o.places o.items.items };
}

/// What a formula has set: the targets, the node deallocation option, and its own variables.
#[derive(Debug)]
pub struct Outcome {
    /// How many nodes the pool is to have.
    pub targets: Targets,
    /// What becomes of the tasks of nodes that go (Azure: $NodeDeallocationOption).
    pub option: Dealloc,
    /// The formula's own variables, in the order of their first settings.
    pub variables: Variables,
}

impl Drop for Outcome {
    fn drop(self) {
        let Outcome {
            targets: _targets,
            option: _option,
            variables: _variables,
        } = self;
    }
}

impl Variables {
    /// No variables.
    pub fn empty(alloc: Global) -> Variables
        ensures { result ≡ [] }
    {
        Variables {
            items: Vec::new(alloc),
            places: NameIndex::new(alloc),
        }
    }

    /// The variables in order. It does not allocate.
    pub fn as_slice(&self) -> &[Variable]
        ensures { result.now ≡ self.now }
    {
        self.items.as_slice()
    }

    /// The value of the variable of this name, if it is set. It does not allocate.
    pub fn value(&self, name: &[u8]) -> Option<&Value>
        ensures { option_map (λ known. known.now) result ≡ value_among self.now name.now }
    {
        let place = self.places.number(name)?;
        let variable = self.items.as_slice().get(place)?;
        Some(&variable.value)
    }

    /// Sets the variable of this name to a value. It comes last if it was not set before. If memory runs out, nothing changes.
    pub fn set(&mut self, alloc: Global, name: Text, value: Value) -> Result<(), NoMemory>
        ensures set { IfOk result (λ _. self.new ≡ with_value self.old name value) }
        ensures unchanged { OnErr result (self.new ≡ self.old) }
    {
        let variable = Variable { name, value };
        match self.places.number(variable.name.as_str().as_bytes()) {
            Some(place) => put_at(&mut self.items, place, variable),
            None => append(alloc, &mut self.items, &mut self.places, variable)?,
        }
        Ok(())
    }
}

fn put_at(variables: &mut Vec<Variable>, place: usize, variable: Variable)
    requires { place < vec_len variables.old }
    ensures { variables.new.items ≡ slice_set variables.old.items place variable }
{
    variables[place] = variable;
}

/// Appends a variable whose name is not there. If memory runs out, nothing changes.
fn append(
    alloc: Global,
    variables: &mut Vec<Variable>,
    places: &mut NameIndex,
    variable: Variable,
) -> Result<(), NoMemory>
    requires places { ArePlaces is_named places.old variables.old.items }
    requires absent { position (is_named variable.name) variables.old.items ≡ None }
    ensures appended { IfOk result (λ _. variables.new.items ≡ variables.old.items ++ variable ∷ []) }
    ensures unchanged { OnErr result (variables.new.items ≡ variables.old.items) }
    ensures places { ArePlaces is_named places.new variables.new.items }
{
    variables.reserve(1)?;
    places.put(alloc, variable.name.as_str().as_bytes(), variables.len())?;
    variables.push(variable)?;
    Ok(())
}
