//! Each value has the type that was found for its expression.
ghost use Rattle.std.specs.Prelude.{◌≡◌, ◌⊎◌, ◌++◌, ℕ, List, Some, Ok};
ghost use Rattle.formula_trees.specs.Tree.{Tree};
ghost use Rattle.formula_trees.specs.declared.token.Span.{Span as ASpan};
ghost use Rattle.formula_trees.specs.Formula.{StatementTree, Sets};
ghost use Rattle.formula_trees.specs.declared.value_types.ExprType.{ExprType as AType};
ghost use Rattle.formula_trees.specs.declared.value_types.ExprType.TheVariants.{Value};
ghost use Rattle.formula_trees.specs.declared.names.Setting.{Setting as ASetting};
ghost use Rattle.formula_trees.specs.Names.{setting_named, setting_type};
ghost use Rattle.formula_types.specs.Scopes.{Variables, nothing, part};
ghost use Rattle.formula_types.specs.Typing.{type_of, statement_typed, typed};
ghost use Rattle.formula_types.specs.Compiled.{IsFormula};
ghost use Rattle.formula_values.specs.declared.value.Value.{Value as AValue};
ghost use Rattle.formula_metrics.specs.declared.metrics.Metrics.{Metrics as AllMetrics};
ghost use Rattle.formula_eval.specs.declared.outcome.Outcome.{Outcome as AnOutcome};
ghost use Rattle.formula_eval.specs.declared.outcome.Targets.{Targets as SomeTargets};
ghost use Rattle.formula_eval.specs.Evaluation.{value_of};
ghost use Rattle.formula_eval.specs.Outcomes.{at_start};
ghost use Rattle.formula_eval.specs.Statements.{statements_done};
ghost use Rattle.formula_laws.specs.ValueTypes.{type_of_value, Agree};
ghost use Rattle.formula_laws.specs.Operands.{AllGoTogether};
ghost use Rattle.formula_laws.specs.Reaching.{Reaches};

/// If variables have values of their types, each expression with a type and a value has a value of that type, and in it and all its
/// parts only operands and arguments meet that go together; each setting gets values of its type; and variables have values of their
/// types before each statement of a formula that its evaluation reaches.
pub fn values_have_types()
    ensures expressions { (text : List ℕ) (metrics : AllMetrics) (now : ℕ) (set : AnOutcome) (variables : Variables) (tree : Tree) (known : AValue) (found : AType) →
        Agree variables set.variables → value_of text metrics now set tree ≡ Ok known → type_of text variables tree ≡ Ok found → found ≡ Value (type_of_value known) }
    ensures operands { (text : List ℕ) (metrics : AllMetrics) (now : ℕ) (set : AnOutcome) (variables : Variables) (tree : Tree) (found : AType) →
        Agree variables set.variables → type_of text variables tree ≡ Ok found → AllGoTogether text metrics now set tree }
    ensures settings { (text : List ℕ) (metrics : AllMetrics) (now : ℕ) (set : AnOutcome) (variables after : Variables) (span : ASpan) (tree : Tree) (known : AValue) (setting : ASetting) →
        Agree variables set.variables → value_of text metrics now set tree ≡ Ok known → statement_typed text variables (Sets span tree) ≡ Ok after →
        setting_named (part text span) ≡ Some setting → setting_type setting ≡ type_of_value known }
    ensures statements { (text : List ℕ) (metrics : AllMetrics) (now : ℕ) (start : SomeTargets) (set : AnOutcome) (variables : Variables) (front rest : List StatementTree) →
        IsFormula text (front ++ rest) → Reaches text metrics now (at_start start) front set → typed text nothing front ≡ Ok variables → Agree variables set.variables }
{}

/// What statements set is what those after the reached ones set from what is set there; and either all statements are reached, or
/// the evaluation ends among them, whatever follows.
pub fn statements_are_reached()
    ensures goes_on { (text : List ℕ) (metrics : AllMetrics) (now : ℕ) (set end : AnOutcome) (front rest : List StatementTree) →
        Reaches text metrics now set front end → statements_done text metrics now set (front ++ rest) ≡ statements_done text metrics now end rest }
    ensures reached_or_ended { (text : List ℕ) (metrics : AllMetrics) (now : ℕ) (set : AnOutcome) (front : List StatementTree) →
        ((end : AnOutcome) × Reaches text metrics now set front end)
        ⊎ ((rest : List StatementTree) → statements_done text metrics now set (front ++ rest) ≡ statements_done text metrics now set front) }
{}
