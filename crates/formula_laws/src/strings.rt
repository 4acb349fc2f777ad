//! The value of a string.
ghost use Rattle.std.specs.Prelude.{◌≡◌, ◌∷◌, ◌++◌, ℕ, List, Ok};
ghost use Rattle.std.specs.Str.{IsUtf8};
ghost use Rattle.formula_trees.specs.declared.token.Token.{Token as AToken};
ghost use Rattle.formula_trees.specs.declared.token.Kind.TheVariants as kinds;
ghost use Rattle.formula_trees.specs.Lexing.{lexed};
ghost use Rattle.formula_trees.specs.Spans.{span_of};
ghost use Rattle.formula_trees.specs.Tree.{Quoted};
ghost use Rattle.formula_values.specs.declared.value.Value.TheVariants as values;
ghost use Rattle.formula_metrics.specs.declared.metrics.Metrics.{Metrics as AllMetrics};
ghost use Rattle.formula_eval.specs.declared.outcome.Outcome.{Outcome as AnOutcome};
ghost use Rattle.formula_eval.specs.Evaluation.{value_of};
ghost use Rattle.formula_laws.specs.Strings.{IsQuoted};

/// In a text that is UTF-8, a string token is a quote, bytes and a quote, and its value is these bytes, each as it is: there are no
/// escapes (this project's profile).
pub fn strings_are_their_bytes()
    ensures { (text : List ℕ) (before after : List AToken) (token : AToken) →
        IsUtf8 text → lexed text ≡ Ok (before ++ token ∷ after) → token.kind ≡ kinds.Text →
        (bytes : List ℕ) × IsQuoted text (span_of token) bytes
        × ((metrics : AllMetrics) (now : ℕ) (set : AnOutcome) → value_of text metrics now set (Quoted (span_of token)) ≡ Ok (values.Text bytes)) }
{}
