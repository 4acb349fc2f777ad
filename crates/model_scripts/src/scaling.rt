//! Pools that scale automatically.
#![tactic(auto, unfolding(bt_base::specs::Ids::same, bt_base::proofs::Turns::lex_lt, bt_base::specs::Numbers::bounded, bt_base::specs::Numbers::number_text, bt_base::specs::Numbers::fraction_text, bt_base::specs::Numbers::decimals, bt_base::specs::Numbers::zeros, bt_base::specs::Numbers::millionths_of, bt_base::specs::Numbers::read_number, bt_base::specs::Numbers::is_digits, bt_base::specs::Utf8::utf8_text, bt_base::specs::DeallocOptions::option_word, bt_base::specs::DeallocOptions::option_named, formula_trees::specs::Pieces::piece_at, formula_trees::specs::Names::metric_named, formula_trees::specs::Names::interval_named, formula_trees::specs::Names::is_option_word, formula_trees::specs::Names::setting_named, formula_trees::specs::Names::function_named, formula_trees::specs::Names::method_named, formula_trees::specs::Names::member_named, formula_trees::specs::Names::fixed_type, formula_trees::specs::Names::is_read_only, formula_types::specs::Compiling::compiled, formula_eval::specs::Results::settings_text, formula_eval::specs::Results::error_text, batch_model::specs::Formulas::formula_ran, batch_model::specs::Formulas::formula_refusal))]

ghost use Rattle.std.specs.Prelude.{◌≡◌, true};
ghost use Rattle.model_scripts.specs.Scripts.{lines_of, rows_after};
ghost use Rattle.model_scripts.specs.Checks.{is_good};
ghost use Rattle.model_scripts.specs.ScalingScripts as row;

/// A pool follows the processors' percentage. A formula that is none is refused, and a pool that scales is not resized by request.
pub fn a_pool_follows_the_processors()
    ensures lines { lines_of row.follows_processors ≡ row.follows_processors_lines }
    ensures rows { rows_after row.follows_processors ≡ row.follows_processors_rows }
    ensures scales { row.scales_after row.follows_processors ≡ row.follows_processors_scales }
    ensures good { is_good row.follows_processors ≡ true }
{}

/// Automatic scaling is enabled again only after 30 seconds, needs a formula, and keeps the parts that are not given.
pub fn scaling_is_enabled_again()
    ensures lines { lines_of row.enabled_again ≡ row.enabled_again_lines }
    ensures scales { row.scales_after row.enabled_again ≡ row.enabled_again_scales }
    ensures good { is_good row.enabled_again ≡ true }
{}

/// One sample of the processors is taken for each half minute.
pub fn samples_are_handed_in()
    ensures lines { lines_of row.handed_in ≡ row.handed_in_lines }
    ensures samples { row.samples_after row.handed_in ≡ row.handed_in_samples }
    ensures good { is_good row.handed_in ≡ true }
{}

/// Formulas are evaluated on request only over pools that scale, and change nothing.
pub fn formulas_are_evaluated()
    ensures lines { lines_of row.evaluated ≡ row.evaluated_lines }
    ensures good { is_good row.evaluated ≡ true }
{}

/// A fault in the evaluation leaves the pool, and a pool that is deleted goes with its samples.
pub fn a_fault_leaves_the_pool()
    ensures lines { lines_of row.fault_and_deletion ≡ row.fault_and_deletion_lines }
    ensures samples { row.samples_after row.fault_and_deletion ≡ row.fault_and_deletion_samples }
    ensures good { is_good row.fault_and_deletion ≡ true }
{}
