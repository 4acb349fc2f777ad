//! Compiled formulas.
ghost use Rattle.std.specs.Prelude.{◌≡◌, true};
ghost use Rattle.formula_trees.specs.View.{statements_of};
ghost use Rattle.formula_types.specs.Compiled.{have_types};

use bt_base::Text;
use formula_trees::Statement;

/// A formula: its text and its statements. Each expression has a type.
#[derive(Drop)]
pub struct Formula {
    pub(crate) text: Text,
    pub(crate) statements: Vec<Statement>,
    ghost typed: { have_types text (statements_of statements.items) ≡ true },
}

impl Formula {
    /// The text, of which names and strings are parts. It does not allocate.
    pub fn text(&self) -> &str
        ensures { result.now ≡ self.now.text }
    {
        self.text.as_str()
    }

    /// The statements in their order. It does not allocate.
    pub fn statements(&self) -> &[Statement]
        ensures { result.now ≡ self.now.statements.items }
    {
        self.statements.as_slice()
    }
}
